//! What the whole programs do over files in memory: each command once, faults of files, proposals of other bytes, and
//! pages and documents.
//! The linked programs are held against tables by `.ci/commands`.
#![tactic(auto)]

#[cfg(test)]
mod answers;
#[cfg(test)]
mod commands;
#[cfg(test)]
mod faults;
#[cfg(test)]
mod reports;
#[cfg(test)]
mod runs;
#[cfg(test)]
mod settled;
