//! Snapshots as bytes and on a disk: what no clause says.
#![tactic(auto)]

#[cfg(test)]
mod bytes;
#[cfg(test)]
mod crashes;
#[cfg(test)]
mod plans;
#[cfg(test)]
mod states;
#[cfg(test)]
mod taped;
