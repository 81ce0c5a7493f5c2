// The texts of worked answers.

/// Two stations: one closed walk of one constraint proves the period.
pub(crate) const TWO_STATIONS_ANSWER: &str = "\
hoist answer 1
verdict optimal
bound 10
splits 0
timetable 10
carrier 0 put 0 off 10
move 0 0 start 2 hoist 0
path 0 2 1 0 0 1 2 3 4 4 3
tree
solved 1 r 0 0
end
";

/// One bath and one hoist.
pub(crate) const ONE_BATH_ANSWER: &str = "\
hoist answer 1
verdict optimal
bound 21
splits 2
timetable 21
carrier 0 put 0 off 15
move 0 0 start 0 hoist 0
move 0 1 start 10 hoist 0
path 0 0 0 1 2 3 3 2 1 1 2 3 3 4 5 6 6 5 4 3 2 1
tree
split hoist 0 0 0 1 -2
closed low 1 r 0 0 high 2 d 0 v 0 1
split hoist 0 0 0 1 -1
closed low 2 d 1 d 0 high 2 d 1 x 0 1
solved 2 m 0 1 d 1
end
";

/// One bath, after one split.
pub(crate) const ONE_BATH_OPEN_ANSWER: &str = "\
hoist answer 1
verdict open
bound 8
splits 1
timetable none
tree
split hoist 0 0 0 1 -2
left 1 r 0 0
left 1 r 0 0
end
";

/// One bath and two hoists.
pub(crate) const TWO_HOISTS_ANSWER: &str = "\
hoist answer 1
verdict optimal
bound 9
splits 1
timetable 9
carrier 0 put 0 off 15
move 0 0 start 0 hoist 0
move 0 1 start 10 hoist 1
path 0 0 0 1 2 3 3 2 1 0
path 1 3 3 3 4 5 6 6 5 4
tree
split hoist 0 0 0 1 -1
closed low 1 r 0 0 high 2 d 0 v 0 1
solved 2 m 0 1 d 0
end
";
