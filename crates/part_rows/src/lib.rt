//! Worked rows of the low crates: lines, moves, clashes, trees of choices, claims, fields, lists of files, markup and words
//! of walks.
#![tactic(auto)]

#[cfg(test)]
mod choice_trees;
#[cfg(test)]
mod claim_boards;
#[cfg(test)]
mod clashes;
#[cfg(test)]
mod fields;
#[cfg(test)]
mod file_lists;
#[cfg(test)]
mod generated_lines;
#[cfg(test)]
mod lines;
#[cfg(test)]
mod markups;
#[cfg(test)]
mod moves;
#[cfg(test)]
mod walks;
