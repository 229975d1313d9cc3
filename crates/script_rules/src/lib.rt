//! What the script language is, by definitions, and what holds of every text and every script.
#![tactic(auto)]

ghost use Rattle.script_rules.specs.Laws.{RefusesFirst, NumbersTell, ReasonsAreListed, NamesLeast, RefusesOnlyFaults, RefusesLong, ReadsOrRefuses, ReadsExpressions, FillsExpressions, CheckedHasForm, CheckedHasFacts, ReadsHaveForm, ReadsHaveFacts, ActorsAreInOrder};

pub mod keywords;
pub mod places;
pub mod reasons;

/// A text is a script or is refused, and never both.
pub fn every_text_reads_or_is_refused()
    ensures { ReadsOrRefuses }
{}

/// A text of at most 64 MiB is refused exactly at its first line that has a fault, the end of input being a line of its own.
pub fn a_refusal_names_the_first_faulty_line()
    ensures { RefusesFirst }
{}

/// Reasons with the same number are the same, and the list of reasons has each one at its number.
pub fn numbers_tell_reasons()
    ensures apart { NumbersTell }
    ensures listed { ReasonsAreListed }
{}

/// A line is refused with the least reason that applies to it, and not at all where none applies.
pub fn a_refusal_names_the_least_reason()
    ensures least { NamesLeast }
    ensures none { RefusesOnlyFaults }
{}

/// A text of more than 64 MiB is refused at line 0.
pub fn a_long_text_is_refused()
    ensures { RefusesLong }
{}

/// The words that are printed of expressions are read as these expressions, and fill exactly the places of so many.
pub fn printed_expressions_read_back()
    ensures read { ReadsExpressions }
    ensures fill { FillsExpressions }
{}

/// The form of a checked script: a whole number of buckets, at most 10,000, below 2^62. Logs are in order of time, below the end,
/// with their source's columns, and have at most 200,000 entries in all. Windows have a size and a step. A fragment has 1 to 4
/// replicas and reads 1 to 8 streams: sources and fragments before it, none of them twice. Clients read what is there. All names
/// differ; a source, a fragment and a client are there. Clocks do not fall, in at most 2,000 phases.
pub fn a_checked_script_has_form()
    ensures { CheckedHasForm }
{}

/// All that engines rely on in a checked script: this form, and each fragment has an operator. Operators read ports that are there
/// and operators before them, and every column that they read is there; what they give has at most 8 columns. An expression has at
/// most 64 words, and a tuple lies in at most 64 windows. Directives name sources, links and nodes that are there.
pub fn a_checked_script_has_facts()
    ensures { CheckedHasFacts }
{}

/// The script that a text is read as has the form of a checked one, whatever the order of the lines.
pub fn what_is_read_has_form()
    ensures { ReadsHaveForm }
{}

/// What engines rely on in a checked script holds of the script that a text is read as, too.
pub fn what_is_read_has_facts()
    ensures { ReadsHaveFacts }
{}

/// In every plan the senders of a stream, its readers and the replicas of a fragment stand in order of number, each one once.
pub fn actors_are_in_order()
    ensures { ActorsAreInOrder }
{}
