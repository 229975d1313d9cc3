//! What a reader saw of a client at the end.

/// How many stable tuples of a client's stream a reader saw, and up to where they are all.
#[derive(Clone, Copy)]
pub struct Watched {
    pub reader: u64,
    pub client: u64,
    pub count: u64,
    pub bound: u64,
}
