//! Covers worked out from their rule.

use lnet_npn::table_of;
use lnet_sop::{Cube, isop};
use std::alloc::{AllocError, Global};
use std::process::Abort;
use std::test::Fail;

/// Asserts that the cover between two functions of four variables, the first made to imply the second, has just these
/// cubes, each by its care and its value.
#[tactic(auto, using(lnet_sop::proofs::TurnLaws::both_imply))]
fn covers(
    rt: &impl Abort,
    alloc: Global,
    lower: u16,
    upper: u16,
    cubes: &[(u16, u16)],
) -> Result<(), AllocError> {
    let upper = table_of(upper);
    let cover = isop(alloc, table_of(lower).and(upper), upper)?;
    assert_eq!(rt; cover.len() as usize, cubes.len());
    for i in 0..cover.len() {
        let (care, value) = cubes[i as usize];
        assert_eq!(rt; cover.cube(i), Cube { care, value });
    }
    Ok(())
}

#[test]
fn covers_of_functions(rt: HostRuntime) -> Result<(), Fail> {
    let rows: [(u16, u16, &[(u16, u16)]); 8] = [
        (0xe8e8, 0xe8e8, &[(6, 6), (5, 5), (3, 3)]),
        (0x9696, 0x9696, &[(7, 1), (7, 2), (7, 4), (7, 7)]),
        (0xcaca, 0xcaca, &[(5, 1), (6, 6)]),
        (0x0357, 0x0357, &[(9, 0), (6, 0)]),
        (0xffff, 0xffff, &[(0, 0)]),
        // Both of two are due, and either may be true.
        (0x8888, 0xeeee, &[(1, 1)]),
        (0x1818, 0x7e7e, &[(5, 1), (5, 4)]),
        (0x0180, 0x7ff8, &[(11, 3), (9, 8)]),
    ];
    for (lower, upper, cubes) in &rows {
        covers(&rt, rt.alloc(), *lower, *upper, cubes)?;
    }
    Ok(())
}
