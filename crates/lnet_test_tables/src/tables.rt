//! Truth tables worked out by hand.

use lnet_npn::{table_of, word_of};
use lnet_tables::Table;

#[test]
fn logic_row_by_row(rt: HostRuntime) {
    let a = Table::variable(2, 0);
    let b = Table::variable(2, 1);
    let words = [word_of(&a.and(b)), word_of(&a.xor(b)), word_of(&a.not())];
    assert_eq!(rt; words, [0x8, 0x6, 0x5]);
    assert!(rt; Table::default() == Table::constant(0, false));
}

#[test]
fn rows_and_variables(rt: HostRuntime) {
    // Both of variables 0 and 1, or else variable 2, and not all three.
    let table = table_of(0x7878);
    assert_eq!(rt; table.support(), 0b0111);
    assert_eq!(rt; [table.get(3), table.get(7)], [true, false]);
}

#[test]
fn variables_move_as_named(rt: HostRuntime) {
    // The multiplexer: variable 1 where variable 0 is true, else variable 2.
    let choice = table_of(0xd8d8);
    let high = choice.cofactor(0, true);
    let low = choice.cofactor(0, false);
    // Variable 2 where variable 1 is true, else variable 0.
    let moved = choice.permute([1, 2, 0, 3, 0, 0, 0, 0, 0, 0]);
    let words = [word_of(&high), word_of(&low), word_of(&moved)];
    assert_eq!(rt; words, [0xcccc, 0xf0f0, 0xe2e2]);
}

#[test]
fn variables_come_and_go(rt: HostRuntime) {
    // The parity of variables 0 and 2 of four.
    let (small, names) = table_of(0x5a5a).shrink();
    assert_eq!(rt; small.vars(), 2);
    assert_eq!(rt; names[1], 2);
    assert_eq!(rt; word_of(&small), 0x6);
    assert_eq!(rt; small.expand(7).words()[1], 0x6666666666666666);
}
