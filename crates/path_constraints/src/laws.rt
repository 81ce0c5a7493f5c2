// What holds of every legal timetable below every path, and of every tree.
ghost use Rattle.path_constraints.specs.Laws.{Cover, ProofBounds};

/// No legal timetable falls between the branches of a tree: below every path that fits a valid line, each legal
/// timetable, of any period, that meets the path's decisions keeps all constraints of the path at its period, reaches
/// each of its moves with the hoist that does it, and meets at least one child of each question that fits.
pub fn cover()
    ensures { Cover }
{}

/// No legal timetable of a valid line has a period below the bound that a tree proves.
pub fn proof_bounds()
    ensures { ProofBounds }
{}
