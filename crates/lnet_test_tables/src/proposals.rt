//! Proposals with recipes worked out from their procedures' rules.

use crate::laid::assert_used;
use lnet_npn::table_of;
use lnet_resyn::{
    NpnCache, Proposal, factor_proposal, majority_proposal, npn_proposal, shannon_proposal,
};
use lnet_tables::{StepOp, Table};
use std::test::Fail;

#[test]
fn worked_majorities(rt: HostRuntime) {
    // The majority itself, the and and the literal of a variable, true, and a function of three steps.
    let rows: [(u16, &[(StepOp, u16, u16, u16)], u16); 5] = [
        (0xe8e8, &[(StepOp::Maj, 2, 4, 6)], 10),
        (0x8888, &[(StepOp::Maj, 0, 2, 4)], 10),
        (0xaaaa, &[], 2),
        (0xffff, &[], 1),
        (
            0x153f,
            &[
                (StepOp::Maj, 1, 3, 9),
                (StepOp::Maj, 5, 7, 10),
                (StepOp::Maj, 0, 10, 12),
            ],
            14,
        ),
    ];
    for (word, steps, root) in &rows {
        assert_used(&rt, majority_proposal(table_of(*word)), steps, *root);
    }
    // The xor of two variables gains no row at its second step, so that its recipe is its expansion.
    let xor = Table::from_words(3, [0x66; 16]);
    assert_used(&rt, majority_proposal(xor), &[(StepOp::Xor, 4, 2, 0)], 8);
}

#[test]
fn plain_proposals(rt: HostRuntime) {
    let xor = shannon_proposal(Table::from_words(2, [0x6; 16]));
    assert_used(&rt, xor, &[(StepOp::Xor, 4, 2, 0)], 6);
    let majority = majority_proposal(Table::from_words(3, [0xe8; 16]));
    assert_used(&rt, majority, &[(StepOp::Maj, 2, 4, 6)], 8);
    let whole = factor_proposal(rt.alloc(), Table::constant(3, true));
    assert_used(&rt, whole, &[], 1);
    // Variables 2 and 3, or variables 0 and 1.
    assert_used(
        &rt,
        factor_proposal(rt.alloc(), table_of(0xf888)),
        &[
            (StepOp::And, 6, 8, 0),
            (StepOp::And, 2, 4, 0),
            (StepOp::And, 11, 13, 0),
        ],
        15,
    );
}

#[test]
fn parity_of_six(rt: HostRuntime) {
    // Three steps for two variables, and for each further one twice as many and three more.
    let odd = Table::from_words(6, [0x6996_9669_9669_6996; 16]);
    match factor_proposal(rt.alloc(), odd) {
        Proposal::Use(recipe) => assert_eq!(rt; recipe.len(), 93),
        _ => assert!(rt; false, "no recipe"),
    }
}

#[test]
fn expansions_pass_the_limit(rt: HostRuntime) {
    // The hexadecimal digits of pi after the point.
    let digits = Table::from_words(
        10,
        [
            0x243f6a8885a308d3,
            0x13198a2e03707344,
            0xa4093822299f31d0,
            0x082efa98ec4e6c89,
            0x452821e638d01377,
            0xbe5466cf34e90c6c,
            0xc0ac29b7c97c50dd,
            0x3f84d5b5b5470917,
            0x9216d5d98979fb1b,
            0xd1310ba698dfb5ac,
            0x2ffd72dbd01adfb7,
            0xb8e1afed6a267e96,
            0xba7c9045f12c7f99,
            0x24a19947b3916cf7,
            0x0801f2e2858efc16,
            0x636920d871574e69,
        ],
    );
    assert!(rt; matches!(&shannon_proposal(digits), Proposal::None));
}

#[test]
fn recipes_of_classes(rt: HostRuntime) -> Result<(), Fail> {
    let cache = NpnCache::new(rt.alloc())?;
    assert_eq!(rt; cache.len(), 222);
    assert!(rt; !cache.is_empty());
    // The class's recipe is the and of the complements of variables 2 and 3, which become variables 0 and 1.
    let both = npn_proposal(&cache, table_of(0x8888));
    assert_used(&rt, both, &[(StepOp::And, 2, 4, 0)], 10);
    Ok(())
}
