//! Places at which a test may hold a worker.

/// Is called by running workers outside every lock. Nothing is promised of it.
pub trait Gate {
    /// Before a taken order of this node (its actor number) is milled.
    fn at_mill(&self, node: u64);

    /// Before an event is tried whose first actor is this one.
    fn at_event(&self, actor: u64);

    /// After a look of this reader.
    fn at_look(&self, reader: u64);
}

/// The gate that holds nobody.
#[derive(Clone, Copy, Debug)]
pub struct OpenGate;

impl Gate for OpenGate {
    fn at_mill(&self, _node: u64) {}

    fn at_event(&self, _actor: u64) {}

    fn at_look(&self, _reader: u64) {}
}
