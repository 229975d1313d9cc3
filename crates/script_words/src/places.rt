//! The places of a line, and the reasons against the words there.
ghost use Rattle.std.specs.Prelude.{◌≡◌, ◌∷◌, []};
ghost use Rattle.dpc_lists.specs.Lists.{nth};
ghost use Rattle.script_rules.specs.Drafts.{Draft, greatest_end};
ghost use Rattle.script_rules.specs.Places as spec;
ghost use Rattle.script_rules.specs.Reasons.{first_of_tests, has_foreign_word, has_wrong_length, lacks_number, is_past_range};
ghost use Rattle.script_words.specs.Cursors.{words_left};
ghost use Rattle.script_words.specs.Limits.{HasLimits, draft_with, places_by};
ghost use Rattle.script_words.specs.Scans.{fault_of_places};

use crate::scans::fault_at;
use crate::words::Words;
use script_rules::keywords::Keyword;
use script_rules::places::{Place, Sort};
use script_rules::reasons::Reason;

/// What the places of a line depend on.
#[derive(Clone, Copy)]
pub struct Limits {
    /// Whether the version is 3.
    pub wide: bool,
    /// The width of a bucket, or 1 until it is named.
    pub width: u64,
    /// The end of the run, or the greatest until it is named.
    pub end: u64,
}

const CLOCK: u64 = 1_000_000_000_000;

const NAME: Place = Place {
    sort: Sort::Name,
    needed: true,
};

const MORE_NAME: Place = Place {
    sort: Sort::Name,
    needed: false,
};

const ACTOR: Place = Place {
    sort: Sort::Actor,
    needed: true,
};

const NATURAL: Place = Place {
    sort: Sort::Natural,
    needed: true,
};

const VALUE: Place = Place {
    sort: Sort::Value,
    needed: true,
};

const MORE_VALUE: Place = Place {
    sort: Sort::Value,
    needed: false,
};

const EXPRESSION: Place = Place {
    sort: Sort::Expression,
    needed: true,
};

const COUNT: Place = Place {
    sort: Sort::Count,
    needed: true,
};

const GROUP: Place = Place {
    sort: Sort::Group,
    needed: true,
};

const AGGREGATE: Place = Place {
    sort: Sort::Aggregate,
    needed: true,
};

const MORE_AGGREGATE: Place = Place {
    sort: Sort::Aggregate,
    needed: false,
};

const MORE_KEY: Place = Place {
    sort: Sort::LeftKey,
    needed: false,
};

const COLUMNS: Place = Place {
    sort: Sort::Range(1, 8),
    needed: true,
};

const REPLICAS: Place = Place {
    sort: Sort::Range(1, 4),
    needed: true,
};

const TIME: Place = Place {
    sort: Sort::Range(0, CLOCK),
    needed: true,
};

const LOG: [Place; 10] = [
    NAME, NATURAL, VALUE, MORE_VALUE, MORE_VALUE, MORE_VALUE, MORE_VALUE, MORE_VALUE, MORE_VALUE,
    MORE_VALUE,
];

const FRAGMENT: [Place; 10] = [
    NAME, REPLICAS, NAME, MORE_NAME, MORE_NAME, MORE_NAME, MORE_NAME, MORE_NAME, MORE_NAME,
    MORE_NAME,
];

const UNION: [Place; 9] = [
    NAME, NAME, NAME, MORE_NAME, MORE_NAME, MORE_NAME, MORE_NAME, MORE_NAME, MORE_NAME,
];

/// The least reason against the words behind a keyword.
pub fn fault_of_words(limits: &Limits, keyword: Keyword, words: Words<'_>) -> Option<Reason>
    ensures { (d : Draft) → HasLimits d limits.now → result ≡ first_of_tests
        ((has_foreign_word d keyword (words_left words.entry), Reason.ForeignWord) ∷
        (has_wrong_length d keyword (words_left words.entry), Reason.WrongCount)
        ∷ (lacks_number d keyword (words_left words.entry), Reason.NoNumber) ∷
        (is_past_range d keyword (words_left words.entry), Reason.OutOfRange) ∷ []) }
{
    fault_by(limits, keyword, words)
}

/// The same, by the limits alone.
fn fault_by(limits: &Limits, keyword: Keyword, words: Words<'_>) -> Option<Reason>
    ensures { result ≡ fault_of_places (places_by limits.now keyword) (words_left words.entry) }
{
    match keyword {
        Keyword::Header(place) => fault_at(&[needed(header_sort(limits, place))], words),
        Keyword::Source => fault_at(&[NAME, COLUMNS], words),
        Keyword::Log => fault_at(&LOG, words),
        Keyword::Fragment => fault_at(&FRAGMENT, words),
        Keyword::Patience | Keyword::Tick => fault_at(&[TIME], words),
        Keyword::Filter => fault_at(&[NAME, NAME, EXPRESSION], words),
        Keyword::Map => fault_at(&[NAME, NAME, COUNT], words),
        Keyword::Union => fault_at(&UNION, words),
        Keyword::Join => join_fault(limits, words),
        Keyword::Aggregate => aggregate_fault(limits, words),
        Keyword::Client => fault_at(&[NAME, NAME], words),
        Keyword::Begin | Keyword::Settle => fault_at(&[], words),
        Keyword::Emit | Keyword::Release => {
            fault_at(&[NAME, needed(Sort::Range(1, limits.end))], words)
        }
        Keyword::Cut | Keyword::Heal | Keyword::Lose | Keyword::Repeat => {
            fault_at(&[ACTOR, ACTOR], words)
        }
        Keyword::Crash | Keyword::Restart => fault_at(&[ACTOR], words),
    }
}

/// A place where a word must stand.
fn needed(sort: Sort) -> Place
    ensures { result ≡ spec.must sort }
{
    Place { sort, needed: true }
}

/// The greatest end.
fn greatest_end(limits: &Limits) -> u64
    ensures { result ≡ greatest_end (draft_with limits.now) }
{
    if limits.wide {
        (1 << 62) - 1
    } else {
        (1 << 40) - 1
    }
}

/// What stands on a line of the header.
fn header_sort(limits: &Limits, place: u64) -> Sort
    ensures { result ≡ nth Sort.Anything (spec.header_sorts (draft_with limits.now)) place }
{
    match place {
        0 => Sort::Range(1, 3),
        1 => Sort::Range(1, if limits.wide { 1 << 50 } else { 1_000_000 }),
        2 => Sort::Range(0, CLOCK),
        3 => Sort::Multiple(limits.width, greatest_end(limits), limits.width),
        4 => Sort::Range(0, 1),
        _ => Sort::Anything,
    }
}

fn join_fault(limits: &Limits, words: Words<'_>) -> Option<Reason>
    ensures { result ≡ fault_of_places (places_by limits.now Keyword.Join) (words_left words.entry) }
{
    let within = needed(Sort::Range(0, greatest_end(limits)));
    let places = [
        NAME, NAME, NAME, within, MORE_KEY, MORE_KEY, MORE_KEY, MORE_KEY, MORE_KEY, MORE_KEY,
        MORE_KEY, MORE_KEY,
    ];
    fault_at(&places, words)
}

fn aggregate_fault(limits: &Limits, words: Words<'_>) -> Option<Reason>
    ensures { result ≡ fault_of_places (places_by limits.now Keyword.Aggregate) (words_left words.entry) }
{
    let size = needed(Sort::Range(1, greatest_end(limits)));
    let places = [
        NAME,
        NAME,
        size,
        size,
        GROUP,
        AGGREGATE,
        MORE_AGGREGATE,
        MORE_AGGREGATE,
        MORE_AGGREGATE,
        MORE_AGGREGATE,
        MORE_AGGREGATE,
        MORE_AGGREGATE,
        MORE_AGGREGATE,
    ];
    fault_at(&places, words)
}
