//! Stored closures that resynthesise tables.

ghost use Rattle.std.specs.Prelude.{◌≡◌, string_bytes};
ghost use Rattle.std.proofs.Props.{props};
ghost use Rattle.lnet_tables.specs.Bits.{Rows};
ghost use Rattle.lnet_resyn.specs.declared.proposal.Proposal.{Proposal as Answer};
ghost use Rattle.lnet_resyn.specs.Procedures.{IsTable, IsWidth, Allowed};

use crate::proposal::{Law, Proposal};
use lnet_tables::Table;

/// A closure that answers a proposal for a table.
pub type Call = Box<dyn Fn(Table) -> Proposal>;

/// A named closure for tables of one width, and the law that it keeps to.
///
/// The type keeps that the closure can be called on every table of the width, and that each answer is one that the law
/// allows: that of the law's procedure or `NoMemory`; under `Law::Foreign` every answer.
#[derive(Drop)]
pub struct Resyn {
    name: String,
    width: u8,
    law: Law,
    call: Call,
    ghost fits: { IsWidth law width } by { Prim.hlevel props },
    ghost callable: { (t : Rows) → IsTable width t → Call.pre call t },
    ghost lawful: { (t : Rows) (p : Answer) → IsTable width t → Call.post call t p → Allowed law t p } by { Prim.hlevel props },
}

impl Resyn {
    /// The closure under this name. It is for tables of `width` variables, 3 to 10; 4 under `Law::Npn`, and 3 or 4 under
    /// `Law::Majority`. Constant time.
    pub fn new(name: String, width: u8, law: Law, call: Call) -> Resyn
        requires width { IsWidth law width }
        requires callable { (t : Rows) → IsTable width t → Call.pre call t }
        requires lawful { (t : Rows) (p : Answer) → IsTable width t → Call.post call t p → Allowed law t p }
        ensures name { string_bytes result.name ≡ string_bytes name }
        ensures width { result.width ≡ width }
        ensures law { result.law ≡ law }
    {
        Resyn {
            name,
            width,
            law,
            call,
        }
    }

    /// The name. Constant time.
    pub fn name(&self) -> &str
        ensures { result.now ≡ string_bytes self.now.name }
    {
        self.name.as_str()
    }

    /// How many variables the tables have. Constant time.
    pub fn width(&self) -> u8
        ensures value { result ≡ self.now.width }
        ensures fits { IsWidth self.now.law result }
    {
        self.width
    }

    /// The law. Constant time.
    pub fn law(&self) -> Law
        ensures { result ≡ self.now.law }
    {
        self.law
    }

    /// The closure's answer for a table of as many variables as the width: one that the law allows. The time is the
    /// closure's.
    pub fn propose(&self, table: Table) -> Proposal
        requires { table.vars ≡ self.now.width }
        ensures { Allowed self.now.law table result }
    {
        let _vars = table.vars();
        ask(&self.call, table)
    }
}

/// The closure's answer.
fn ask(call: &Call, table: Table) -> Proposal
    requires { Call.pre call.now table }
    ensures { Call.post call.now table result }
{
    call(table)
}
