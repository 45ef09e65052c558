//! Known counts of classes of functions, and worked transforms.

use crate::laid::assert_laid;
use lnet_npn::{Transform, canonise, mark_class, table_of, word_of};
use lnet_tables::{Lit, Recipe, Step, StepOp};
use std::test::Fail;

#[test]
fn counts_of_classes(rt: HostRuntime) {
    let mut count = 0u32;
    for word in 0..=u16::MAX {
        let (least, _) = canonise(table_of(word));
        if word_of(&least) == word {
            count = count.wrapping_add(1);
        }
    }
    assert_eq!(rt; count, 222);
}

#[test]
fn functions_of_a_class(rt: HostRuntime) -> Result<(), Fail> {
    // The ands of two of four variables, each plain or complemented, and their complements: 6 * 4 * 2.
    let mut marks = vec![in rt.alloc(); false; 65536]?;
    mark_class(0x8888, marks.as_mut_slice());
    let mut count = 0u32;
    for mark in &marks {
        if *mark {
            count = count.wrapping_add(1);
        }
    }
    assert_eq!(rt; count, 48);
    Ok(())
}

#[test]
fn worked_transforms(rt: HostRuntime) {
    // The and of variables 0 and 1. The least table of its class is the and of the complements of variables 2 and 3.
    let (least, back) = canonise(table_of(0x8888));
    let first = Transform {
        order: [2, 3, 0, 1],
        flips: 0b1100,
        out: false,
    };
    assert_eq!(rt; back, first);
    assert_eq!(rt;
        [word_of(&least), word_of(&back.apply(least))],
        [0x000f, 0x8888]
    );
}

#[test]
fn worked_rewiring(rt: HostRuntime) -> Result<(), Fail> {
    // What reads variable 0 plain reads variable 1 complemented now, and so on around.
    let around = Transform {
        order: [1, 2, 3, 0],
        flips: 0b0001,
        out: true,
    };
    let back = Transform {
        order: [3, 0, 1, 2],
        flips: 0b0010,
        out: true,
    };
    assert_eq!(rt; around.invert(), back);
    // The and of variables 0 and 1 becomes the complement of the and of the complement of variable 1 and variable 2.
    let mut recipe = Recipe::new(4);
    let both = recipe.push(Step {
        op: StepOp::And,
        a: Lit(2),
        b: Lit(4),
        c: Lit(0),
    })?;
    recipe.set_root(both);
    let moved = around.on_recipe(&recipe);
    assert_laid(&rt, &moved, &[(StepOp::And, 5, 6, 0)], 11);
    let applied = around.apply(table_of(0x8888));
    assert_eq!(rt;
        [word_of(&applied), word_of(&moved.simulate())],
        [0xcfcf, 0xcfcf]
    );
    Ok(())
}
