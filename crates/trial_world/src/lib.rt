//! What no clause says of a world: that it hands work out and takes it back where there is memory, and where stale work stood.
#![tactic(auto)]

#[cfg(test)]
mod handing;
