//! Words at the places of their line, one after another.
ghost use Rattle.std.specs.Prelude.{⊤, ◌≡◌, ◌⊎◌, ◌||◌, ◌+◌, ◌^◌, ◌<◌, ◌≤◌, ◌++◌, ◌∷◌, List, [], drop, replicate, MatchOption};
ghost use Rattle.dpc_lists.specs.Lists.{list_any};
ghost use Rattle.script_rules.specs.Places.{leaves_over};
ghost use Rattle.script_rules.specs.declared.places.Place as place;
ghost use Rattle.script_rules.specs.Reasons.{first_of_tests};
ghost use Rattle.script_words.specs.Cursors.{words_left};
ghost use Rattle.script_words.specs.Scans.{repeated_place, open_places, fault_of_places};

use crate::seen::{Repeated, Seen, look};
use crate::words::Words;
use script_rules::places::Place;
use script_rules::reasons::Reason;

/// The places that are still open: those that words opened, and then those of the line from number `next` on.
#[derive(Clone, Copy)]
pub struct Open {
    pub count: u128,
    pub repeated: Repeated,
    pub next: usize,
}

impl Open {
    /// The first open place, which is taken.
    fn take(&mut self, places: &[Place]) -> Option<Place>
        ensures place { MatchOption result
            (open_places places.now self.old ≡ [])
            (λ p. open_places places.now self.old ≡ p ∷ open_places places.now self.new) }
        ensures repeated { MatchOption result ⊤ (λ p. (self.new.count ≡ 0) ⊎ (p ≡ repeated_place self.new.repeated)) }
        ensures count { self.new.count ≤ self.old.count }
    {
        if self.count > 0 {
            self.count -= 1;
            return Some(self.repeated.place());
        }
        let place = *places.get(self.next)?;
        self.next += 1;
        Some(place)
    }

    /// Opens more places before the open ones.
    fn add(&mut self, count: u64, repeated: Repeated)
        requires alike { (self.old.count ≡ 0) ⊎ ((count ≡ 0) ⊎ (repeated ≡ self.old.repeated)) }
        requires room { self.old.count + count < 2 ^ 128 }
        ensures opened { (places : List place.Place)
            → open_places places self.new ≡ replicate count (repeated_place repeated) ++ open_places places self.old }
        ensures count { self.new.count ≡ self.old.count + count }
    {
        if count > 0 {
            self.count += u128::from(count);
            self.repeated = repeated;
        }
    }

    /// Whether a word must still stand somewhere.
    fn needs_word(&self, places: &[Place]) -> bool
        ensures { result ≡ leaves_over (open_places places.now self.now) [] }
    {
        if self.count > 0 && self.repeated.place().needed {
            return true;
        }
        some_needed(places, self.next)
    }
}

/// Whether a word must stand at one of the places from number `next` on.
fn some_needed(places: &[Place], next: usize) -> bool
    ensures { result ≡ list_any (λ (p : place.Place). p.needed) (drop next places.now) }
{
    places.iter().skip(next).any(|p| p.needed)
}

/// What was found so far.
#[derive(Clone, Copy)]
struct Flaws {
    foreign: bool,
    no_number: bool,
    bad: bool,
}

impl Flaws {
    /// With what a further word is.
    fn and(self, seen: &Seen) -> Flaws
        ensures { result ≡ record {
          foreign = self.foreign || seen.now.foreign;
          no_number = self.no_number
              || seen.now.no_number;
          bad = self.bad || seen.now.bad;
        } }
    {
        Flaws {
            foreign: self.foreign || seen.foreign,
            no_number: self.no_number || seen.no_number,
            bad: self.bad || seen.bad,
        }
    }

    /// The least reason, with whether there are too few or too many words.
    fn fault(self, wrong_length: bool) -> Option<Reason>
        ensures { result ≡ first_of_tests ((self.foreign, Reason.ForeignWord) ∷ (wrong_length, Reason.WrongCount) ∷
            (self.no_number, Reason.NoNumber) ∷ (self.bad, Reason.OutOfRange) ∷ []) }
    {
        if self.foreign {
            Some(Reason::ForeignWord)
        } else if wrong_length {
            Some(Reason::WrongCount)
        } else if self.no_number {
            Some(Reason::NoNumber)
        } else if self.bad {
            Some(Reason::OutOfRange)
        } else {
            None
        }
    }
}

/// The least reason against words at these places.
pub(crate) fn fault_at(places: &[Place], mut words: Words<'_>) -> Option<Reason>
    ensures { result ≡ fault_of_places places.now (words_left words.entry) }
{
    let mut unfilled = Open {
        count: 0,
        repeated: Repeated::Anything,
        next: 0,
    };
    let mut flaws = Flaws {
        foreign: false,
        no_number: false,
        bad: false,
    };
    while let Some(word) = words.next() {
        let Some(place) = unfilled.take(places) else {
            return flaws.fault(true);
        };
        let seen = look(place.sort, word, words);
        unfilled.add(seen.count, seen.repeated);
        flaws = flaws.and(&seen);
    }
    flaws.fault(unfilled.needs_word(places))
}
