//! The lists of a circuit, statement by statement.

ghost use Rattle.std.specs.Prelude.{◌≡◌, ◌+◌, ◌<◌, ◌≤◌, length, IsTrue, IfOk, OnOk};
ghost use Rattle.std.specs.List.{list_all};
ghost use Rattle.lnet_edge.specs.Circuits.{wire_limit};
ghost use Rattle.lnet_bliflines.specs.Words.{is_word, word_lists};
ghost use Rattle.lnet_blif.specs.Numbering.{with_names};
ghost use Rattle.lnet_blif.specs.Listing.{Fits, nothing, add, add_input, add_inputs, add_output, add_outputs, see_cover, table_of, uses_of, closed, commanded, position_of, lists_view, state_view, table_view, place_view, statement_view, names_count, names_fit};

use crate::statements::Statement;
use crate::tables::{Place, Table};
use lnet_edge::{CoverRows, Equation, InputPort, Name, OutputPort, Rule, Wire, WireRef};
use lnet_wires::Wires;
use smallvec::SmallVec;
use std::alloc::{AllocError, Global};
use std::str;

/// The names that were seen, and the ports and equations so far.
#[derive(Drop)]
pub(crate) struct Lists<'a> {
    pub wires: Wires<'a>,
    pub inputs: Vec<InputPort>,
    pub outputs: Vec<OutputPort>,
    pub equations: Vec<Equation>,
}

/// The name of a port.
fn port_name(alloc: Global, name: &[u8]) -> Result<Name, AllocError>
    requires { IsTrue (is_word name.now) }
    ensures { IfOk result (λ n. n ≡ name.now) }
{
    match str::from_utf8(name) {
        Ok(text) => Ok(Name::new(String::from_str(alloc, text)?)),
        Err(_) => unreachable!(),
    }
}

/// The uses of the wires of names.
fn uses<'a>(
    alloc: Global,
    wires: &mut Wires<'a>,
    names: &[&'a [u8]],
) -> Result<SmallVec<WireRef, 4>, AllocError>
    requires { length wires.old + length names.now < wire_limit }
    ensures uses { IfOk result (λ refs. refs.items ≡ uses_of wires.old (word_lists names.now)) }
    ensures names { OnOk result (wires.new ≡ with_names wires.old (word_lists names.now)) }
    ensures few { OnOk result (length wires.new ≤ length wires.old + length names.now) }
{
    let mut refs = SmallVec::new(alloc);
    for name in names {
        let wire = Wire(wires.wire(name)?);
        refs.push(WireRef {
            wire,
            complement: false,
        })?;
    }
    Ok(refs)
}

/// No names, ports and equations. It takes no memory.
pub(crate) fn no_lists<'a>(alloc: Global) -> Lists<'a>
    ensures { lists_view result ≡ nothing }
{
    Lists {
        wires: Wires::new(alloc),
        inputs: Vec::new(alloc),
        outputs: Vec::new(alloc),
        equations: Vec::new(alloc),
    }
}

impl<'a> Lists<'a> {
    fn add_input(&mut self, alloc: Global, name: &'a [u8]) -> Result<(), AllocError>
        requires room { length self.old.wires < wire_limit }
        requires name { IsTrue (is_word name.now) }
        ensures value { OnOk result (lists_view self.new ≡ add_input (lists_view self.old) name.now) }
        ensures few { OnOk result (length self.new.wires ≤ length self.old.wires + 1) }
    {
        let wire = Wire(self.wires.wire(name)?);
        let name = Some(port_name(alloc, name)?);
        self.inputs.push(InputPort { wire, name })?;
        Ok(())
    }

    fn add_inputs(&mut self, alloc: Global, names: &[&'a [u8]]) -> Result<(), AllocError>
        requires room { length self.old.wires + length names.now < wire_limit }
        requires names { IsTrue (list_all is_word (word_lists names.now)) }
        ensures value { OnOk result (lists_view self.new ≡ add_inputs (lists_view self.old) (word_lists names.now)) }
        ensures few { OnOk result (length self.new.wires ≤ length self.old.wires + length names.now) }
    {
        for name in names {
            self.add_input(alloc, name)?;
        }
        Ok(())
    }

    fn add_output(&mut self, alloc: Global, name: &'a [u8]) -> Result<(), AllocError>
        requires room { length self.old.wires < wire_limit }
        requires name { IsTrue (is_word name.now) }
        ensures value { OnOk result (lists_view self.new ≡ add_output (lists_view self.old) name.now) }
        ensures few { OnOk result (length self.new.wires ≤ length self.old.wires + 1) }
    {
        let source = WireRef {
            wire: Wire(self.wires.wire(name)?),
            complement: false,
        };
        let name = Some(port_name(alloc, name)?);
        self.outputs.push(OutputPort { source, name })?;
        Ok(())
    }

    fn add_outputs(&mut self, alloc: Global, names: &[&'a [u8]]) -> Result<(), AllocError>
        requires room { length self.old.wires + length names.now < wire_limit }
        requires names { IsTrue (list_all is_word (word_lists names.now)) }
        ensures value { OnOk result (lists_view self.new ≡ add_outputs (lists_view self.old) (word_lists names.now)) }
        ensures few { OnOk result (length self.new.wires ≤ length self.old.wires + length names.now) }
    {
        for name in names {
            self.add_output(alloc, name)?;
        }
        Ok(())
    }

    /// Begins the cover of these operands and this target.
    fn begin_cover(
        &mut self,
        alloc: Global,
        operands: &[&'a [u8]],
        target: &'a [u8],
    ) -> Result<Table, AllocError>
        requires { length self.old.wires + length operands.now + 1 < wire_limit }
        ensures value { OnOk result (lists_view self.new ≡ see_cover (lists_view self.old) (word_lists operands.now) target.now) }
        ensures table { IfOk result (λ t. table_view t ≡ table_of self.old.wires (word_lists operands.now) target.now) }
        ensures few { OnOk result (length self.new.wires ≤ length self.old.wires + length operands.now + 1) }
    {
        let operands = uses(alloc, &mut self.wires, operands)?;
        let target = Wire(self.wires.wire(target)?);
        let rows = CoverRows::new(alloc, true);
        Ok(Table {
            target,
            operands,
            rows,
        })
    }

    /// Ends the cover that goes on at the place.
    pub(crate) fn close(&mut self, place: Place) -> Result<(), AllocError>
        ensures value { OnOk result (lists_view self.new ≡ closed (lists_view self.old) (place_view place)) }
        ensures same { OnOk result (self.new.wires ≡ self.old.wires) }
    {
        if let Place::Inside(table) = place {
            self.equations.push(Equation {
                target: table.target,
                rule: Rule::Cover(table.rows),
                operands: table.operands,
            })?;
        }
        Ok(())
    }

    /// Adds what a command says, outside covers, and answers where the next line stands.
    fn add_command(
        &mut self,
        alloc: Global,
        command: Statement<'_, 'a>,
    ) -> Result<Place, AllocError>
        requires room { length self.old.wires + names_count command < wire_limit }
        requires fits { IsTrue (names_fit (statement_view command)) }
        ensures value { IfOk result (λ place. state_view self.new place ≡ commanded (lists_view self.old) (statement_view command.entry)) }
        ensures few { OnOk result (length self.new.wires ≤ length self.old.wires + names_count command.entry) }
    {
        match command {
            Statement::Inputs(names) => {
                self.add_inputs(alloc, names)?;
                Ok(Place::Outside)
            }
            Statement::Outputs(names) => {
                self.add_outputs(alloc, names)?;
                Ok(Place::Outside)
            }
            Statement::Names(operands, target) => {
                Ok(Place::Inside(self.begin_cover(alloc, operands, target)?))
            }
            Statement::End => Ok(Place::Behind),
            Statement::Model | Statement::Row(_, _) => Ok(Place::Outside),
        }
    }

    /// Adds what a statement at the place says, and answers where the next line stands.
    pub(crate) fn add(
        &mut self,
        alloc: Global,
        place: Place,
        statement: Statement<'_, 'a>,
    ) -> Result<Place, AllocError>
        requires room { length self.old.wires + names_count statement < wire_limit }
        requires fits { Fits (position_of (place_view place)) (statement_view statement) }
        ensures value { IfOk result (λ after. state_view self.new after ≡ add (state_view self.old place) (statement_view statement.entry)) }
        ensures few { OnOk result (length self.new.wires ≤ length self.old.wires + names_count statement.entry) }
    {
        if let Statement::Row(cells, value) = statement {
            return Ok(place.with_row(alloc, cells, value)?);
        }
        self.close(place)?;
        self.add_command(alloc, statement)
    }
}
