//! The senders of a stream at one of its readers: which of them is read, and when a session is opened anew.
#![tactic(auto)]

pub mod upstream;
