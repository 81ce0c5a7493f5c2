// What holds of clashes.
ghost use Rattle.collision_pairs.specs.Laws.{HasNoHoles, TurnsRound, AreTight};

/// The forbidden offsets of two motions have no holes: their clash is exactly the set of them.
pub fn no_holes()
    ensures { HasNoHoles }
{}

/// With its two motions in the other order a clash is turned round.
pub fn turns_round()
    ensures { TurnsRound }
{}

/// A clash holds an offset, and its ends are small.
pub fn tight()
    ensures { AreTight }
{}
