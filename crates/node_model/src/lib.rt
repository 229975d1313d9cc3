//! Definitions of the plain node and its steps, of sources, clients and what they send.
#![tactic(auto)]
