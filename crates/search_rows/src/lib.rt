//! Worked rows of the search, from constraints to whole searches, and jobs that meet at gates. What a command prints is
//! tried on the linked programs by `.ci/commands`.
#![tactic(auto)]

#[cfg(test)]
mod batches;
#[cfg(test)]
mod closed_walks;
#[cfg(test)]
mod constraints;
#[cfg(test)]
mod envelopes;
#[cfg(test)]
mod expansions;
#[cfg(test)]
mod first_questions;
#[cfg(test)]
mod hunts;
#[cfg(test)]
mod laws;
#[cfg(test)]
mod longest_paths;
#[cfg(test)]
mod margins;
#[cfg(test)]
mod meeting;
#[cfg(test)]
mod plans;
#[cfg(test)]
mod proposals;
#[cfg(test)]
mod searches;
#[cfg(test)]
mod workers;
