//! What a resynthesis answers, and by which law.

use lnet_tables::Recipe;

/// The answer of a resynthesis for a table.
#[derive(Drop)]
pub enum Proposal {
    /// A recipe for the table.
    Use(Recipe),
    /// No recipe.
    None,
    /// Memory ran out.
    NoMemory,
}

/// By which procedure a stored closure answers.
#[derive(Clone, Copy, Debug, PartialEq, Eq)]
pub enum Law {
    /// As `shannon_proposal`.
    Shannon,
    /// As `npn_proposal`.
    Npn,
    /// As `majority_proposal`.
    Majority,
    /// As `factor_proposal`.
    Factor,
    /// As the closure likes.
    Foreign,
}
