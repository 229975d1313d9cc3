//! Lines of the header, of sources, and of their logs.
ghost use Rattle.std.specs.Prelude.{◌≡◌, ◌<◌, ◌≤◌, true, ℕ, ℤ, List, length, Some, None, MatchOption, IfOk, OnOk, OnErr, nat_lt, not, ◌||◌};
ghost use Rattle.dpc_model.specs.Words.{Word};
ghost use Rattle.dpc_lists.specs.Lists.{is_nil};
ghost use Rattle.script_rules.specs.Statements.{HeaderLine, SourceLine, LogLine};
ghost use Rattle.script_rules.specs.Drafts as spec;
ghost use Rattle.script_rules.specs.Reasons.{first_of_tests, tests_said, last_time, log_entries};
ghost use Rattle.script_draft.specs.Caches.{fault_in, StandsFor, IsSourceAt};

use crate::draft::Draft;
use crate::limits::{MOST_BUCKETS, MOST_ENTRIES, MOST_SOURCES};
use dpc_lists::faults::NoMemory;
use dpc_lists::lists::{Listed, Name};
use dpc_model::plans::SourceSpec;
use dpc_model::tuples::{Tuple, Vals};
use script_rules::reasons::Reason;
use std::alloc::Global;

/// A name of these bytes.
pub(super) fn name_of_bytes(alloc: Global, bytes: &[u8]) -> Result<Name, NoMemory>
    ensures { IfOk result (λ name. name ≡ bytes.now) }
{
    Ok(Listed::from_vec(Vec::from_slice(alloc, bytes)?))
}

/// The time of the last entry of a log, and 0 where there is none.
fn last_time(log: &[Tuple]) -> u64
    ensures { result ≡ last_time log.now }
{
    match log.last() {
        Some(tuple) => tuple.stime,
        None => 0,
    }
}

impl Draft {
    /// The least reason against a line of the header.
    pub fn fault_of_header(&self, place: u64, number: u64) -> Option<Reason>
        ensures { result ≡ first_of_tests (tests_said self.now (HeaderLine place number)) }
    {
        let width = self.width_of();
        if place == 3 && width > 0 && number / width > MOST_BUCKETS {
            Some(Reason::PastLimit)
        } else {
            None
        }
    }

    /// A line of the header.
    pub fn add_header(&mut self, number: u64) -> Result<(), NoMemory>
        ensures ok { OnOk result ((place : ℕ) → self.new ≡ spec.and_then self.old (HeaderLine place number)) }
        ensures err { OnErr result (self.new ≡ self.old) }
    {
        self.header.push(number)?;
        Ok(())
    }

    /// The least reason against the line of a source.
    pub fn fault_of_source(&self, name: &[u8]) -> Option<Reason>
        ensures { (columns : ℕ) → result ≡ first_of_tests (tests_said self.now (SourceLine name.now columns)) }
    {
        if self.is_name_taken(name) {
            Some(Reason::NameTaken)
        } else if self.sources.len() >= MOST_SOURCES {
            Some(Reason::PastLimit)
        } else {
            None
        }
    }

    /// The line of a source.
    pub fn add_source(&mut self, alloc: Global, name: &[u8], columns: u64) -> Result<(), NoMemory>
        requires part { is_nil self.old.frags ≡ true }
        requires few { columns ≤ 8 }
        ensures ok { OnOk result (self.new ≡ spec.and_then self.old (SourceLine name.now columns)) }
        ensures err { OnErr result (self.new ≡ self.old) }
    {
        let name = name_of_bytes(alloc, name)?;
        let log = Listed::from_vec(Vec::new(alloc));
        self.sources.push(SourceSpec { name, columns, log })?;
        Ok(())
    }

    /// The source of that name, with its number.
    fn source_at(&self, name: &[u8]) -> Option<(u64, &SourceSpec)>
        ensures { MatchOption result (spec.source_named self.now name.now ≡ None)
            (λ found. IsSourceAt self.now name.now found.0 found.1.now) }
    {
        let number = self.source_named(name)?;
        Some((number, &self.sources[number as usize]))
    }

    /// The source of a log line with so many values, or the least reason against the line.
    pub fn source_of_log(&self, source: &[u8], time: Option<u64>, count: u64) -> Result<u64, Reason>
        ensures found { IfOk result (λ s. spec.source_named self.now source.now ≡ Some s) }
        ensures there { IfOk result (λ s. s < length self.now.sources) }
        ensures room { IfOk result (λ _. log_entries self.now < 200000) }
        ensures fault { (t : ℕ) → (vals : List ℤ) → StandsFor time t → length vals ≡ count
            → fault_in result ≡ first_of_tests (tests_said self.now (LogLine source.now t vals)) }
    {
        let Some((number, spec)) = self.source_at(source) else {
            return Err(Reason::Unknown);
        };
        if self.is_out_of_time(spec, time) {
            Err(Reason::OutOfTime)
        } else if count != spec.columns {
            Err(Reason::NoSuchColumn)
        } else if self.is_full_of_entries() {
            Err(Reason::PastLimit)
        } else {
            Ok(number)
        }
    }

    /// Whether no entry of that time may follow in the log of a source.
    fn is_out_of_time(&self, source: &SourceSpec, time: Option<u64>) -> bool
        ensures { (t : ℕ) → StandsFor time t
            → result ≡ (nat_lt t (last_time source.now.log) || not (nat_lt t (spec.end_of self.now))) }
    {
        let end = self.end_of();
        match time {
            Some(time) => time < last_time(source.log.as_slice()) || time >= end,
            None => true,
        }
    }

    /// Whether there is no room for a further entry of a log.
    fn is_full_of_entries(&self) -> bool
        ensures { result ≡ not (nat_lt (log_entries self.now) 200000) }
    {
        self.entries >= MOST_ENTRIES
    }

    /// A log line of the source of that number.
    pub fn add_log(&mut self, source: u64, time: u64, vals: Vals) -> Result<(), NoMemory>
        requires there { source < length self.old.sources }
        requires room { log_entries self.old < 200000 }
        ensures ok { OnOk result ((name : Word) → spec.source_named self.old name ≡ Some source
            → self.new ≡ spec.and_then self.old (LogLine name time vals)) }
        ensures err { OnErr result (self.new ≡ self.old) }
    {
        let tuple = Tuple { stime: time, vals };
        self.sources[source as usize].log.push(tuple)?;
        self.entries += 1;
        Ok(())
    }
}
