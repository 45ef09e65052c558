//! The plain types of logic networks: nodes, signals, kinds, operations and gates.
#![tactic(auto)]

mod forming;
mod gate;
mod kinds;
mod laws;
mod laying;
mod normal;
mod planning;
mod signal;
mod tabling;
mod wiring;
mod words;

pub use forming::{normal_and, normal_maj, normal_xor};
pub use gate::{Gate, Kind, Op};
pub use kinds::{AigGates, Gates, KlutGates, MigGates, XagGates};
pub use laws::{
    and_forms_are_lawful, and_xor_rows, kind_forms_are_lawful, lut_forms_are_lawful,
    maj_forms_are_lawful, majority_rows, table_rows, xor_forms_are_lawful,
};
pub use normal::{Key, Normal};
pub use planning::Plan;
pub use signal::{Node, Signal};
pub use tabling::normal_lut;
