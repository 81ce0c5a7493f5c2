//! What optimal answers say of the loops of the tick machine: laws, whose calls do nothing.
#![tactic(auto)]

pub mod laws;
