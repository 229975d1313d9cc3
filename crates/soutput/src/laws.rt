//! How the calls of an output go on to stand for the plain one.
ghost use Rattle.soutput.specs.Laws.{GivingStands, UndoingStands, AnsweringStands, AckingStands};

/// An output that stood for a plain one stands for it with what is new, and gave what that gives.
pub fn a_giving_output_stands()
    ensures { GivingStands }
{}

/// It stands for the plain one whose tentative output was taken back, and gave the same.
pub fn an_undoing_output_stands()
    ensures { UndoingStands }
{}

/// It answers a subscription as the plain one does, and keeps the same session.
pub fn an_answering_output_stands()
    ensures { AnsweringStands }
{}

/// It forgets exactly what every reader acknowledged, as the plain one's base says.
pub fn an_acknowledged_output_stands()
    ensures { AckingStands }
{}
