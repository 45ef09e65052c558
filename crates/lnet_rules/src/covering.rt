//! Covers: their tables, and what their rows name.

ghost use Rattle.std.specs.Prelude.{◌≡◌, ◌++◌, IfOk, OnOk, length};
ghost use Rattle.lnet_edge.specs.Values.{cell_holds as cell_bit, row_holds as row_bit, cover_value};
ghost use Rattle.lnet_edge.specs.Wires.{HasArity};
ghost use Rattle.lnet_edge.specs.declared.circuit.Rule.TheVariants.{Cover};
ghost use Rattle.lnet_rules.specs.Rules.{literal_of, literals as literal_list, bits_of, cover_table};

use lnet_edge::CoverRows;
use lnet_gates::Signal;
use std::alloc::{AllocError, Global};

// ---- as a table

/// Whether an operand of this value is as the cell says.
fn cell_holds(cell: u8, value: bool) -> bool
    ensures { result ≡ cell_bit cell value }
{
    match cell {
        b'0' => !value,
        b'1' => value,
        _ => true,
    }
}

/// Whether each operand is as the row says, where operand `i` is bit `i` of the number.
fn row_holds(row: &[u8], number: u64) -> bool
    ensures { result ≡ row_bit row.now (bits_of (length row.now) number) }
{
    let mut rest = number;
    for cell in row {
        if !cell_holds(*cell, rest % 2 == 1) {
            return false;
        }
        rest /= 2;
    }
    true
}

/// The value of the cover where operand `i` is bit `i` of the number.
fn cover_holds(cover: &CoverRows, operands: usize, number: u64) -> bool
    requires { HasArity (Cover cover.now) operands }
    ensures { result ≡ cover_value cover.now (bits_of operands number) }
{
    for k in 0..cover.len() {
        if row_holds(cover.row(k), number) {
            return cover.value();
        }
    }
    cover.len() > 0 && !cover.value()
}

/// The table of the cover over so many operands: bit `r` is its value at row `r`.
pub(crate) fn table_of(cover: &CoverRows, operands: usize) -> u64
    requires { HasArity (Cover cover.now) operands }
    ensures { result ≡ cover_table cover.now operands }
{
    let mut table = 0;
    for number in (0..64).rev() {
        table = 2 * table + u64::from(cover_holds(cover, operands, number));
    }
    table
}

// ---- row by row

/// Adds what a cell names of its operand: the complement at `0`, the operand at `1`, and nothing at `-`.
fn push_literal(literals: &mut Vec<Signal>, cell: u8, operand: Signal) -> Result<(), AllocError>
    ensures { OnOk result (literals.new.items ≡ literals.old.items ++ literal_of cell operand) }
{
    match cell {
        b'0' => {
            literals.push(operand.flipped(true))?;
            Ok(())
        }
        b'1' => {
            literals.push(operand)?;
            Ok(())
        }
        _ => Ok(()),
    }
}

/// What a row names of the operands, in order.
pub(crate) fn literals_of(
    alloc: Global,
    row: &[u8],
    operands: &[Signal],
) -> Result<Vec<Signal>, AllocError>
    requires { length row.now ≡ length operands.now }
    ensures { IfOk result (λ literals. literals.items ≡ literal_list row.now operands.now) }
{
    let mut literals = Vec::new(alloc);
    for i in 0..row.len() {
        push_literal(&mut literals, row[i], operands[i])?;
    }
    Ok(literals)
}
