// Laws of legal timetables.
#![tactic(auto)]

pub mod laws;
