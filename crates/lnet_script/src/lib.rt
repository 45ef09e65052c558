//! Scripts: the commands that their bytes spell.
#![tactic(auto)]

mod command;
mod keywords;
mod laws;
mod reading;
mod refusal;
mod script;
mod words;

pub use command::{Command, Generation, Query, ReadFormat, WriteFormat};
pub use laws::{scripts_by_their_pieces, words_spell_one_command};
pub use script::{ScriptError, parse_script};
