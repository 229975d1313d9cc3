//! What no clause says of both ends of a stream: that each call that allocates does so where there is memory.
#![tactic(auto)]

#[cfg(test)]
mod buffers;
#[cfg(test)]
mod inlets;
#[cfg(test)]
mod outputs;
#[cfg(test)]
mod unions;
