//! Who else is at a run by several threads.

/// Who is there beside those who make a run's events.
#[derive(Clone, Copy, PartialEq, Eq, Debug)]
pub enum Beside {
    Nobody,
    /// So many who mill what workers put into a pool: 1 to 16.
    Millers(u64),
    /// So many who read what the clients take: 1 to 8.
    Readers(u64),
}
