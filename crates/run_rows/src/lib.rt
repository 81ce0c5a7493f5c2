//! Worked rows of timetables, of the tick machine, and of what is drawn and printed of a run.
#![tactic(auto)]

#[cfg(test)]
mod charts;
#[cfg(test)]
mod loop_plans;
#[cfg(test)]
mod loops;
#[cfg(test)]
mod machines;
#[cfg(test)]
mod recordings;
#[cfg(test)]
mod run_texts;
#[cfg(test)]
mod runs;
#[cfg(test)]
mod timetables;
#[cfg(test)]
mod written;
