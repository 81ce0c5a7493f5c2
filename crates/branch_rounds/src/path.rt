// A path of the tree, as a job.
ghost use Rattle.std.specs.Prelude.{◌≡◌};

use choice_tree::Decision;
use std::marker::Model;

/// The decisions from the root to a node.
#[derive(Drop)]
pub(crate) struct Path {
    decisions: Vec<Decision>,
}

impl Model for Path {
    ghost use Rattle.std.specs.Prelude.{List};
    ghost use Rattle.choice_tree.specs.declared.question.Decision.{Decision};

    ghost Value = { List Decision };

    ghost view = { λ path. path.decisions.items };
}

impl Path {
    /// The path with these decisions. It takes no memory.
    pub(crate) fn from_vec(decisions: Vec<Decision>) -> Path
        ensures { result ≡ decisions.items }
    {
        Path { decisions }
    }

    /// The decisions from the root on.
    pub(crate) fn as_slice(&self) -> &[Decision]
        ensures { result.now ≡ self.now }
    {
        self.decisions.as_slice()
    }
}
