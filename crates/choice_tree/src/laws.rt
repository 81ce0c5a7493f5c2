// What holds of paths.
ghost use Rattle.choice_tree.specs.Laws.{OnePath, GoesOn};

/// In a tree there is one path to each node, and a path goes on with each decision that leads from its end.
pub fn paths()
    ensures one { OnePath }
    ensures on { GoesOn }
{}
