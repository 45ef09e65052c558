//! Circuits as lines of text, which the tests compare.

use lnet_edge::{Circuit, CoverRows, Name, Rule, WireRef};
use std::alloc::{AllocError, Global};

fn put_name(text: &mut String, name: &Option<Name>) -> Result<(), AllocError> {
    match name {
        Some(name) => write!(text, ":{}", name.as_str()),
        None => Ok(()),
    }
}

fn put_use(text: &mut String, used: WireRef) -> Result<(), AllocError> {
    let sign = if used.complement { "!" } else { "" };
    let wire = used.wire.0;
    write!(text, " {sign}{wire}")
}

fn put_rows(text: &mut String, rows: &CoverRows) -> Result<(), AllocError> {
    let value = u8::from(rows.value());
    write!(text, "cover")?;
    for place in 0..rows.len() {
        text.push(' ')?;
        for cell in rows.row(place) {
            text.push(*cell as char)?;
        }
        write!(text, ":{value}")?;
    }
    Ok(())
}

fn put_rule(text: &mut String, rule: &Rule) -> Result<(), AllocError> {
    match rule {
        Rule::And(false) => text.push_str("and"),
        Rule::And(true) => text.push_str("nand"),
        Rule::Or(false) => text.push_str("or"),
        Rule::Or(true) => text.push_str("nor"),
        Rule::Xor(false) => text.push_str("xor"),
        Rule::Xor(true) => text.push_str("xnor"),
        Rule::Maj(_) => text.push_str("maj"),
        Rule::Lut(table) => write!(text, "lut {table}"),
        Rule::Cover(rows) => put_rows(text, rows),
    }
}

/// The inputs, the outputs and the equations of a circuit, as `1:a 2; 3:f !2; 3 = and 1 !2`.
pub(crate) fn circuit_text(alloc: Global, circuit: &Circuit) -> Result<String, AllocError> {
    let mut text = String::new(alloc);
    for input in circuit.inputs() {
        let wire = input.wire.0;
        write!(&mut text, " {wire}")?;
        put_name(&mut text, &input.name)?;
    }
    text.push(';')?;
    for output in circuit.outputs() {
        put_use(&mut text, output.source)?;
        put_name(&mut text, &output.name)?;
    }
    for equation in circuit.equations() {
        let target = equation.target.0;
        write!(&mut text, "; {target} = ")?;
        put_rule(&mut text, &equation.rule)?;
        for operand in equation.operands.as_slice() {
            put_use(&mut text, *operand)?;
        }
    }
    Ok(text)
}
