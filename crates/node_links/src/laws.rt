//! What the calls of `Links` make of the neighbours is what the plain node's steps leave of them.
ghost use Rattle.node_links.specs.Laws.{FindsSenders, NewLinksStand, MessagesStand, TicksStand};

/// Links that know the neighbours find them as the definitions do.
pub fn senders_are_found()
    ensures { FindsSenders }
{}

/// New links stand for those of a new node.
pub fn new_links_stand()
    ensures { NewLinksStand }
{}

/// A beat, a truncation and a loss leave what they leave of the plain node.
pub fn links_stand_after_messages()
    ensures { MessagesStand }
{}

/// A tick leaves what it leaves of the plain node.
pub fn links_stand_after_ticks()
    ensures { TicksStand }
{}
