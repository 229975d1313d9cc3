//! What the steps of the plain node make of its inputs, its output, and what it knows of others.
#![tactic(auto)]
