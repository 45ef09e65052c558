//! The lists of a circuit, statement by statement.

ghost use Rattle.std.specs.Prelude.{◌≡◌, ◌+◌, ◌<◌, ◌≤◌, length, IsTrue, IfOk, OnOk};
ghost use Rattle.lnet_edge.specs.Circuits.{wire_limit};
ghost use Rattle.lnet_bench.specs.Statements.{is_name, names_in, statement_view, operands_length};
ghost use Rattle.lnet_bench.specs.Listing.{Fits, nothing, add, add_input, add_output, add_gate, add_constant, lists_view, constant_rule};

use crate::statements::Statement;
use crate::wiring::{Driven, refer, refer_all};
use lnet_edge::{Equation, InputPort, Name, OutputPort, Rule, Wire};
use lnet_wires::Wires;
use smallvec::SmallVec;
use std::alloc::{AllocError, Global};
use std::str;

/// The names that were seen, and the ports and equations so far.
#[derive(Drop)]
pub(crate) struct Lists<'a> {
    pub wires: Wires<'a>,
    pub inputs: Vec<InputPort>,
    pub outputs: Vec<OutputPort>,
    pub equations: Vec<Equation>,
}

/// The name of a port.
fn port_name(alloc: Global, name: &[u8]) -> Result<Name, AllocError>
    requires { IsTrue (is_name name.now) }
    ensures { IfOk result (λ n. n ≡ name.now) }
{
    match str::from_utf8(name) {
        Ok(text) => Ok(Name::new(String::from_str(alloc, text)?)),
        Err(_) => unreachable!(),
    }
}

/// The rule of a constant: a table of no operands.
fn constant_rule(value: bool) -> Rule
    ensures { result ≡ constant_rule value }
{
    if value { Rule::Lut(1) } else { Rule::Lut(0) }
}

/// No names, ports and equations. It takes no memory.
pub(crate) fn no_lists<'a>(alloc: Global) -> Lists<'a>
    ensures { lists_view result ≡ nothing }
{
    Lists {
        wires: Wires::new(alloc),
        inputs: Vec::new(alloc),
        outputs: Vec::new(alloc),
        equations: Vec::new(alloc),
    }
}

impl<'a> Lists<'a> {
    fn add_input(&mut self, alloc: Global, name: &'a [u8]) -> Result<(), AllocError>
        requires room { length self.old.wires < wire_limit }
        requires name { IsTrue (is_name name.now) }
        ensures value { OnOk result (lists_view self.new ≡ add_input (lists_view self.old) name.now) }
        ensures few { OnOk result (length self.new.wires ≤ length self.old.wires + 1) }
    {
        let wire = Wire(self.wires.wire(name)?);
        let name = Some(port_name(alloc, name)?);
        self.inputs.push(InputPort { wire, name })?;
        Ok(())
    }

    fn add_output(
        &mut self,
        alloc: Global,
        driven: Driven,
        name: &'a [u8],
    ) -> Result<(), AllocError>
        requires room { length self.old.wires < wire_limit }
        requires name { IsTrue (is_name name.now) }
        ensures value { OnOk result (lists_view self.new ≡ add_output driven (lists_view self.old) name.now) }
        ensures few { OnOk result (length self.new.wires ≤ length self.old.wires + 1) }
    {
        let source = refer(&mut self.wires, driven, name)?;
        let name = Some(port_name(alloc, name)?);
        self.outputs.push(OutputPort { source, name })?;
        Ok(())
    }

    fn add_gate(
        &mut self,
        alloc: Global,
        driven: Driven,
        target: &'a [u8],
        rule: Rule,
        args: &'a [u8],
    ) -> Result<(), AllocError>
        requires { length self.old.wires + length args.now + 2 < wire_limit }
        ensures value { OnOk result (lists_view self.new ≡ add_gate driven (lists_view self.old) target.now rule (names_in args.now)) }
        ensures few { OnOk result (length self.new.wires ≤ length self.old.wires + length args.now + 2) }
    {
        let target = Wire(self.wires.wire(target)?);
        let operands = refer_all(alloc, &mut self.wires, driven, args)?;
        self.equations.push(Equation {
            target,
            rule,
            operands,
        })?;
        Ok(())
    }

    fn add_constant(
        &mut self,
        alloc: Global,
        target: &'a [u8],
        value: bool,
    ) -> Result<(), AllocError>
        requires { length self.old.wires < wire_limit }
        ensures value { OnOk result (lists_view self.new ≡ add_constant (lists_view self.old) target.now value) }
        ensures few { OnOk result (length self.new.wires ≤ length self.old.wires + 1) }
    {
        let target = Wire(self.wires.wire(target)?);
        self.equations.push(Equation {
            target,
            rule: constant_rule(value),
            operands: SmallVec::new(alloc),
        })?;
        Ok(())
    }

    /// Adds what a statement says.
    pub(crate) fn add(
        &mut self,
        alloc: Global,
        driven: Driven,
        statement: Statement<'a>,
    ) -> Result<(), AllocError>
        requires room { length self.old.wires + operands_length statement + 2 < wire_limit }
        requires fits { Fits (statement_view statement) }
        ensures value { OnOk result (lists_view self.new ≡ add driven (lists_view self.old) (statement_view statement.entry)) }
        ensures few { OnOk result (length self.new.wires ≤ length self.old.wires + operands_length statement.entry + 2) }
    {
        match statement {
            Statement::Input(name) => self.add_input(alloc, name),
            Statement::Output(name) => self.add_output(alloc, driven, name),
            Statement::Gate(target, rule, args) => self.add_gate(alloc, driven, target, rule, args),
            Statement::Constant(target, value) => self.add_constant(alloc, target, value),
        }
    }
}
