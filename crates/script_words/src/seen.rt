//! What a word is at its place.
ghost use Rattle.std.specs.Prelude.{◌≡◌, not, ◌&&◌, ◌==◌, ◌%◌, [], bytes_eq};
ghost use Rattle.script_rules.specs.Places as spec;
ghost use Rattle.script_rules.specs.Spelling.{is_value};
ghost use Rattle.script_words.specs.Cursors.{words_left};
ghost use Rattle.script_words.specs.Scans.{repeated_place, IsSeen};

use crate::spelling::{column_of, is_name, is_node_name, is_numeral, is_value, number, value};
use crate::symbols::{begins_aggregate, symbol_of};
use crate::words::Words;
use script_rules::places::{Place, Sort};

/// The places that a word opens behind its own are all alike.
#[derive(Clone, Copy)]
pub enum Repeated {
    Expression,
    Column,
    Natural,
    Anything,
}

/// What a word is at its place, and the places that it opens.
#[derive(Clone, Copy)]
pub struct Seen {
    pub foreign: bool,
    pub no_number: bool,
    /// No number, or one out of range.
    pub bad: bool,
    /// How many places the word opens.
    pub count: u64,
    pub repeated: Repeated,
}

impl Repeated {
    /// The place.
    pub fn place(self) -> Place
        ensures { result ≡ repeated_place self }
    {
        match self {
            Repeated::Expression => Place {
                sort: Sort::Expression,
                needed: true,
            },
            Repeated::Column => Place {
                sort: Sort::Column,
                needed: true,
            },
            Repeated::Natural => Place {
                sort: Sort::Natural,
                needed: true,
            },
            Repeated::Anything => Place {
                sort: Sort::Anything,
                needed: false,
            },
        }
    }
}

/// A word that opens no place.
fn closed(foreign: bool, no_number: bool, bad: bool) -> Seen
    ensures { result ≡ record { foreign = foreign; no_number = no_number; bad = bad; count = 0; repeated = Repeated.Anything } }
{
    Seen {
        foreign,
        no_number,
        bad,
        count: 0,
        repeated: Repeated::Anything,
    }
}

/// What a word is at a place of this sort, with those behind it.
pub fn look(sort: Sort, word: &[u8], behind: Words<'_>) -> Seen
    ensures { IsSeen sort word.now (words_left behind.entry) result }
{
    match sort {
        Sort::Name => closed(!is_name(word), false, false),
        Sort::Actor => closed(!(is_name(word) || is_node_name(word)), false, false),
        Sort::Group => closed(
            !(equals(word, b"-") || column_of(word).is_some()),
            false,
            false,
        ),
        Sort::Column => closed(column_of(word).is_none(), false, false),
        Sort::Anything => closed(false, false, false),
        Sort::Natural => of_numeral(word),
        Sort::Range(low, high) => of_range(word, low, high),
        Sort::Multiple(low, high, of) => of_multiple(word, low, high, of),
        Sort::Value => of_value(word),
        Sort::Expression => of_symbol(word),
        Sort::Count => of_count(word, behind),
        Sort::Aggregate => of_aggregate(word),
        Sort::LeftKey => Seen {
            count: 1,
            repeated: Repeated::Natural,
            ..of_numeral(word)
        },
    }
}

fn of_numeral(word: &[u8]) -> Seen
    ensures { IsSeen Sort.Natural word.now [] result }
{
    let no_number = !is_numeral(word);
    closed(false, no_number, no_number)
}

fn of_range(word: &[u8], low: u64, high: u64) -> Seen
    ensures { IsSeen (Sort.Range low high) word.now [] result }
{
    match number(word) {
        Some(n) => closed(false, false, !is_between(low, high, n)),
        None => closed(false, !is_numeral(word), true),
    }
}

fn of_multiple(word: &[u8], low: u64, high: u64, of: u64) -> Seen
    ensures { IsSeen (Sort.Multiple low high of) word.now [] result }
{
    match number(word) {
        Some(n) => closed(false, false, !is_multiple(low, high, of, n)),
        None => closed(false, !is_numeral(word), true),
    }
}

fn is_between(low: u64, high: u64, n: u64) -> bool
    ensures { result ≡ spec.is_between low high n }
{
    low <= n && n <= high
}

fn is_multiple(low: u64, high: u64, of: u64, n: u64) -> bool
    ensures { result ≡ (spec.is_between low high n && n % of == 0) }
{
    is_between(low, high, n) && n.is_multiple_of(of)
}

fn of_value(word: &[u8]) -> Seen
    ensures { IsSeen Sort.Value word.now [] result }
{
    match value(word) {
        Some(_) => closed(false, false, false),
        None => closed(false, !is_value(word), true),
    }
}

fn of_symbol(word: &[u8]) -> Seen
    ensures { IsSeen Sort.Expression word.now [] result }
{
    let symbol = symbol_of(word);
    let no_value = symbol.lacks_value();
    Seen {
        foreign: symbol.is_foreign(),
        no_number: is_no_value(no_value, word),
        bad: no_value,
        count: symbol.operands(),
        repeated: Repeated::Expression,
    }
}

/// Whether a word without a value of i64 is no value at all.
fn is_no_value(no_value: bool, word: &[u8]) -> bool
    ensures { result ≡ (no_value && not (is_value word.now)) }
{
    no_value && !is_value(word)
}

/// Behind a number of expressions stand as many; behind another word anything may stand.
fn of_count(word: &[u8], behind: Words<'_>) -> Seen
    ensures { IsSeen Sort.Count word.now (words_left behind.entry) result }
{
    let most = behind.count();
    match number(word) {
        Some(n) => Seen {
            foreign: false,
            no_number: false,
            bad: n < 1 || 8 < n,
            count: n.min(most + 1),
            repeated: Repeated::Expression,
        },
        None if is_numeral(word) => Seen {
            foreign: false,
            no_number: false,
            bad: true,
            count: most + 1,
            repeated: Repeated::Expression,
        },
        None => Seen {
            foreign: false,
            no_number: true,
            bad: true,
            count: most,
            repeated: Repeated::Anything,
        },
    }
}

fn of_aggregate(word: &[u8]) -> Seen
    ensures { IsSeen Sort.Aggregate word.now [] result }
{
    Seen {
        foreign: !begins_aggregate(word),
        no_number: false,
        bad: false,
        count: if equals(word, b"count") { 0 } else { 1 },
        repeated: Repeated::Column,
    }
}

/// Whether a word is this one.
fn equals(word: &[u8], other: &[u8]) -> bool
    ensures { result ≡ bytes_eq word.now other.now }
{
    word == other
}
