//! What is printed of a script is canonical, and is read or refused as that script. What is read is checked.
#![tactic(auto)]

ghost use Rattle.script_rules.specs.Laws.{PrintsCanonical, ReadsBack, RefusesAsChecked, PrintsBack, ReadsChecked};

/// The text that is printed of a checked script is canonical: no line is skipped, single spaces, LF behind each line, and each
/// source is followed by its log.
pub fn what_is_printed_is_canonical()
    ensures { PrintsCanonical }
{}

/// That text is read as the script that it was printed of.
pub fn what_is_printed_is_read_back()
    ensures { ReadsBack }
{}

/// The text of a script that isn't checked, but is in range and refers to what has a name, is refused exactly as `check` says, at
/// the same line and with the same reason.
pub fn what_is_printed_is_refused_as_checked()
    ensures { RefusesAsChecked }
{}

/// And a canonical text is what is printed of the script that it is read as, byte by byte.
pub fn a_canonical_text_is_what_is_printed()
    ensures { PrintsBack }
{}

/// What is read is checked: its names, numbers and counts are in their ranges, and `check` finds no fault in it.
pub fn what_is_read_is_checked()
    ensures { ReadsChecked }
{}
