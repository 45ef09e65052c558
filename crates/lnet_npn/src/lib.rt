//! Classes of the functions of four variables under the order and the complements of the variables and of the value.
#![tactic(auto)]

mod canonical;
mod exchanges;
mod marking;
mod rewiring;
mod transforms;
mod words;

pub use canonical::canonise;
pub use marking::mark_class;
pub use transforms::Transform;
pub use words::{table_of, word_of};
