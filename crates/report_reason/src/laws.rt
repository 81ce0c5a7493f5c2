// What a reason is worth.
ghost use Rattle.report_reason.specs.Laws.{OneReason, ShownIsProof, NoneIsProof, OptimalIsShown};

/// Two sections that say the reason of one answer are the same.
pub fn one_reason()
    ensures { OneReason }
{}

/// In an answer that keeps the rules of the checker the walk that is shown is closed, refutes all periods below the
/// bound, and its branch leaves the bound open. Where none is shown, each branch refutes the bound too, or has a move
/// that no hoist can make; that is never so where the answer is optimal.
pub fn cases_prove()
    ensures shown { ShownIsProof }
    ensures none { NoneIsProof }
    ensures optimal { OptimalIsShown }
{}
