//! What no clause says of the commands: whole ones over memory.
#![tactic(auto)]

#[cfg(test)]
mod programs;
