//! Definitions of the world: its events and runs, schedules, what is safe, and the statements of laws.
#![tactic(auto)]
