//! What no clause says of operators and of work: that each call that allocates does so where there is memory.
#![tactic(auto)]

#[cfg(test)]
mod joins;
#[cfg(test)]
mod keepers;
#[cfg(test)]
mod mills;
#[cfg(test)]
mod orders;
#[cfg(test)]
mod windows;
