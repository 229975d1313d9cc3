//! Why work that was done apart is not put back.
ghost use Rattle.std.specs.Prelude.{◌≡◌, ◌≤◌};
ghost use Rattle.node_core.specs.Milling.{needed_by, is_stale};

use fragment_mill::mill::FragMill;
use mill_work::lending::Done;
use mill_work::order::Order;

/// Where a node stands, beside an order.
#[derive(Clone, Copy, PartialEq, Eq)]
pub struct Point {
    /// Whether the node is up.
    pub up: bool,
    pub inc: u64,
    /// The first bucket that is not processed stably.
    pub cursor: u64,
    /// How many buckets may be milled.
    pub ready: u64,
    /// Whether the engine at the cursor is the order's, and the next ready buckets begin with the order's.
    pub fits: bool,
}

/// Why nothing was put back.
#[derive(Clone, Copy, PartialEq, Eq)]
pub enum CommitFault {
    NoMemory,
    /// An earlier call wanted memory.
    Spent,
    /// The node does not stand any more where the order was taken.
    Stale { had: Point, needed: Point },
}

/// Where a node would have to stand for an order to be put back.
pub fn needed_by(order: &Order<FragMill>) -> Point
    ensures { result ≡ needed_by order.now }
{
    Point {
        up: true,
        inc: order.inc,
        cursor: order.cursor,
        ready: order.buckets.len() as u64,
        fits: true,
    }
}

/// Where a node would have to stand for work on its own engine to be put back. Some bucket has to be ready.
pub fn needed_when_done(done: &Done<FragMill>) -> Point
    ensures needed { result ≡ needed_by done.now.order }
    ensures some { 1 ≤ result.ready }
{
    Point {
        up: true,
        inc: done.inc(),
        cursor: done.cursor(),
        ready: done.count(),
        fits: true,
    }
}

/// Whether a node stands elsewhere than it would have to.
pub(crate) fn is_stale(had: Point, needed: Point) -> bool
    ensures { result ≡ is_stale had needed }
{
    had.inc != needed.inc || had.cursor != needed.cursor || had.ready < needed.ready || !had.fits
}
