// Other answers to the line of two hoists, which has one bath.

/// The timetable of the least period, and a bound that it is below.
pub(crate) const REJECTED_ANSWER: &str = "\
hoist answer 1
verdict optimal
bound 10
splits 1
timetable 9
carrier 0 put 0 off 15
move 0 0 start 0 hoist 0
move 0 1 start 10 hoist 1
path 0 0 0 1 2 3 3 2 1 0
path 1 3 3 3 4 5 6 6 5 4
tree
split hoist 0 0 0 1 -1
closed low 1 r 0 0 high 2 d 0 v 0 1
solved 2 m 0 1 d 0
end
";

/// No split to spend.
pub(crate) const NO_SPLIT_ANSWER: &str = "\
hoist answer 1
verdict open
bound 1
splits 0
timetable none
tree
left none
end
";
