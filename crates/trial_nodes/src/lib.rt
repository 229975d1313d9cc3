//! What no clause says of neighbours, data paths, sources and clients: that each call that allocates does so where there is
//! memory.
#![tactic(auto)]

#[cfg(test)]
mod asks;
#[cfg(test)]
mod choices;
#[cfg(test)]
mod clients;
#[cfg(test)]
mod monitors;
#[cfg(test)]
mod neighbours;
#[cfg(test)]
mod pipelines;
#[cfg(test)]
mod senders;
#[cfg(test)]
mod sources;
