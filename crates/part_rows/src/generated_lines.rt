// Lines of some seeds. The numbers of seed 0 are worked by hand, those of the others by a script that follows the rule.
use hoist_base::Line;
use line_gen::line_of;
use std::alloc::{AllocError, Global};
use std::test::Fail;

// A bath: the number of its tank, and its window.
type Bath = (u32, u32, Option<u32>);

fn has_bath(line: &Line, k: usize, bath: Bath) -> bool {
    match line.stages().get(k) {
        None => false,
        Some(stage) => {
            stage.tanks.as_slice() == [bath.0].as_slice()
                && (stage.min, stage.max) == (bath.1, bath.2)
                && (stage.lift, stage.lower) == (2, 2)
        }
    }
}

// Whether the line of a seed has so many hoists and just these baths.
fn is_line(alloc: Global, seed: u32, hoists: u32, baths: &[Bath]) -> Result<bool, AllocError> {
    let line = line_of(alloc, seed)?;
    if line.hoists() != hoists || line.stages().len() != baths.len().saturating_add(2) {
        return Ok(false);
    }
    let mut k: usize = 0;
    for bath in baths {
        k = k.saturating_add(1);
        if !has_bath(&line, k, *bath) {
            return Ok(false);
        }
    }
    Ok(true)
}

const SEED_0: [Bath; 9] = [
    (1, 22, Some(52)),
    (2, 6, None),
    (3, 8, None),
    (4, 6, None),
    (5, 10, Some(20)),
    (6, 16, Some(36)),
    (7, 16, Some(26)),
    (8, 16, Some(36)),
    (9, 12, Some(32)),
];

// Its last bath stands in the tank of the first.
const SEED_1: [Bath; 10] = [
    (1, 12, Some(22)),
    (2, 20, Some(30)),
    (3, 11, None),
    (4, 20, Some(30)),
    (5, 15, Some(35)),
    (6, 7, Some(17)),
    (7, 20, None),
    (8, 7, Some(17)),
    (9, 12, Some(32)),
    (1, 12, None),
];

// The numbers of this seed begin with the greatest that there is.
const SEED_2147483645: [Bath; 9] = [
    (1, 15, Some(35)),
    (2, 11, Some(31)),
    (3, 9, Some(29)),
    (4, 11, Some(31)),
    (5, 7, Some(17)),
    (6, 21, Some(51)),
    (7, 21, None),
    (8, 21, Some(51)),
    (1, 5, None),
];

#[test]
fn lines_of_seeds(rt: HostRuntime) -> Result<(), Fail> {
    let alloc = rt.alloc();
    assert!(rt; is_line(alloc, 0, 1, &SEED_0)?);
    assert!(rt; is_line(alloc, 1, 1, &SEED_1)?);
    assert!(rt; is_line(alloc, 2_147_483_645, 2, &SEED_2147483645)?);
    // from here on the seeds begin anew
    assert!(rt; is_line(alloc, 2_147_483_646, 1, &SEED_0)?);
    Ok(())
}

fn has_tank(line: &Line, i: usize, name: &[u8], at: u32) -> bool {
    match line.tanks().get(i) {
        None => false,
        Some(tank) => tank.name.as_slice() == name && tank.at == at,
    }
}

#[test]
fn tanks_of_seed_zero(rt: HostRuntime) -> Result<(), Fail> {
    let line = line_of(rt.alloc(), 0)?;
    let numbers = (line.track(), line.gap(), line.degree(), line.max_period());
    assert_eq!(rt; numbers, (20, 2, 1, 2_000));
    assert_eq!(rt; (line.load(), line.unload()), (5, 5));
    assert_eq!(rt; line.tanks().len(), 11);
    assert!(rt; has_tank(&line, 0, b"load", 0));
    assert!(rt; has_tank(&line, 1, b"t1", 2));
    assert!(rt; has_tank(&line, 9, b"t9", 18));
    assert!(rt; has_tank(&line, 10, b"out", 20));
    Ok(())
}
