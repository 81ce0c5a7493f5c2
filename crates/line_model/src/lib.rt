// What a timetable of a line is, and when it is legal: definitions, and the motion that they speak of.
#![tactic(auto)]

mod motion;

pub use motion::Motion;
