//! What no clause says of scripts and reports: that each call that allocates does so where there is memory.
#![tactic(auto)]

#[cfg(test)]
mod checks;
#[cfg(test)]
mod drafts;
#[cfg(test)]
mod lines;
#[cfg(test)]
mod reports;
#[cfg(test)]
mod words;
