//! How the calls go on to stand for the plain inputs, where a clause gives the new value.
ghost use Rattle.sunion.specs.Laws.{StartStands, RestartingStands, ClosingStands, UndoingStands, SessionsStand, HearingTells};

/// A new value stands for the plain inputs at the opening. One behind a snapshot stands for those that
/// have any tuples of those counts below the cursor's bucket.
pub fn a_new_union_stands()
    ensures { StartStands }
{}

/// Inputs begun anew behind a snapshot stand for those that have any tuples of those counts below the
/// cursor's bucket, and the last session of each port.
pub fn a_restarting_union_stands()
    ensures { RestartingStands }
{}

/// Inputs that stood for plain ones stand for those with the next bucket closed.
pub fn a_closing_union_stands()
    ensures { ClosingStands }
{}

/// They stand for the plain ones without closed buckets.
pub fn an_undoing_union_stands()
    ensures { UndoingStands }
{}

/// They stand for the plain ones where a port's session changes, by each call that changes it.
pub fn sessions_of_a_union_stand()
    ensures { SessionsStand }
{}

/// A port hears of a loss exactly where the plain inlet does.
pub fn a_hearing_union_tells()
    ensures { HearingTells }
{}
