// What holds of all answers.
ghost use Rattle.cert_checker.specs.Laws.{NoReasonWhereKept};

/// An answer that keeps the rules has no reason to be rejected: its verdict has its timetable, bound and left nodes,
/// its splits are counted, its timetable is legal and its tree proves its bound. So `check` accepts it.
pub fn answers_without_reason()
    ensures { NoReasonWhereKept }
{}
