//! The sorts of frames that stand in a list.
ghost use Rattle.std.specs.Prelude.{◌≡◌, Option};
ghost use Rattle.frame_lists.specs.Lists.{entry_in, item_in};
ghost use Rattle.stream_codec.specs.declared.frames.Frame.{Frame as FrameValue};

use dpc_model::messages::Event;
use dpc_model::tuples::Item;
use stream_codec::frames::Frame;

/// What frames of a sort hold.
pub trait Sort<T> {
    ghost part: { Self → FrameValue → Option T };

    /// What a frame holds, where it is of this sort.
    fn part(&self, frame: Frame) -> Option<T>
        ensures { result ≡ part self.now frame };
}

/// The entries of journals.
#[derive(Clone, Copy)]
pub struct Entries;

impl Sort<Event> for Entries {
    ghost part = { λ _ frame. entry_in frame };

    fn part(&self, frame: Frame) -> Option<Event> {
        match frame {
            Frame::Entry(event) => Some(event),
            _ => None,
        }
    }
}

/// The items of a client's stream. A plan without passing has no item that tells how far tentative output goes.
#[derive(Clone, Copy)]
pub struct Items {
    pub passing: bool,
}

impl Sort<Item> for Items {
    ghost part = { λ items frame. item_in items.passing frame };

    fn part(&self, frame: Frame) -> Option<Item> {
        match frame {
            Frame::Item(Item::Passed(upto)) => {
                if self.passing {
                    Some(Item::Passed(upto))
                } else {
                    None
                }
            }
            Frame::Item(item) => Some(item),
            _ => None,
        }
    }
}
