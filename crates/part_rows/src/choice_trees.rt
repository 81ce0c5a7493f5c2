ghost use Rattle.std.specs.Prelude.{◌≡◌};

use choice_tree::{Constraint, Decision, Node, Proof, Question, Tree};
use hoist_base::{MoveId, VisitId};
use std::test::Fail;

fn first_of_two(q: i64) -> Question {
    Question::HoistOrder {
        a: MoveId {
            carrier: 0,
            step: 0,
        },
        b: MoveId {
            carrier: 0,
            step: 1,
        },
        q,
    }
}

#[test]
fn small_tree(rt: HostRuntime) -> Result<(), Fail> {
    let alloc = rt.alloc();
    let mut tree = Tree::new(alloc)?;
    let low = Proof::from_vec(vec![in alloc; Constraint::Repeat { c: 0, k: 0 }]?);
    let question = first_of_two(-1);
    assert!(rt; tree.split(0, question, 2, &low)?);
    assert_eq!(rt; tree.len(), 3);
    assert_eq!(rt; tree.order(alloc)?.as_slice(), [0, 1, 2].as_slice());
    let path = tree.path(alloc, 2)?;
    assert_eq!(rt;
        path.as_slice(),
        [Decision { question, child: 1 }].as_slice()
    );
    Ok(())
}

// A split below the first child, then one without children: the preorder isn't the order of the numbers.
#[test]
fn deeper_tree(rt: HostRuntime) -> Result<(), Fail> {
    let alloc = rt.alloc();
    let mut tree = Tree::new(alloc)?;
    let low = Proof::from_vec(vec![in alloc; Constraint::Min { c: 0, k: 1 }]?);
    let choose = Question::Choose {
        v: VisitId {
            carrier: 0,
            stage: 1,
        },
    };
    let assign = Question::Assign {
        m: MoveId {
            carrier: 0,
            step: 0,
        },
    };
    assert!(rt; tree.split(0, choose, 3, &low)?);
    assert!(rt; tree.split(1, first_of_two(0), 2, &low)?);
    assert!(rt; tree.split(4, assign, 0, &low)?);
    assert!(rt;
        tree.end(
            2,
            Node::Stuck {
                m: MoveId {
                    carrier: 0,
                    step: 1
                }
            }
        )
    );
    assert_eq!(rt;
        tree.order(alloc)?.as_slice(),
        [0, 1, 4, 5, 2, 3].as_slice()
    );
    let path = tree.path(alloc, 5)?;
    let want = [
        Decision {
            question: choose,
            child: 0,
        },
        Decision {
            question: first_of_two(0),
            child: 1,
        },
    ];
    assert_eq!(rt; path.as_slice(), want.as_slice());
    match tree.node(3) {
        Node::Left { low: Some(low) } => assert_eq!(rt;
            low.as_slice(),
            [Constraint::Min { c: 0, k: 1 }].as_slice()
        ),
        _ => assert!(rt; false),
    }
    Ok(())
}
