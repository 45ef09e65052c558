//! Resynthesis by the Shannon expansion and by factored forms.

ghost use Rattle.std.specs.Prelude.{◌≡◌, ◌≢◌, ◌≤◌, length, IfSome};
ghost use Rattle.lnet_tables.specs.Recipes.{sim};
ghost use Rattle.lnet_tables.specs.Shannon.{shannon_of};
ghost use Rattle.lnet_resyn.specs.Procedures.{proposal_of, recipe_in, form_of};
ghost use Rattle.lnet_resyn.specs.declared.proposal.Proposal.TheVariants.{Use, NoMemory};

use crate::proposal::Proposal;
use lnet_sop::{FactorError, factor, isop};
use lnet_tables::{Table, shannon};
use std::alloc::Global;

/// The recipe of `table` by the Shannon expansion, as `lnet_tables::shannon` says; `None` exactly where it has more than 128
/// steps. With at most seven variables it never has.
pub fn shannon_proposal(table: Table) -> Proposal
    ensures recipe { result ≡ proposal_of (shannon_of table) }
    ensures function { IfSome (recipe_in result) (λ r. sim r ≡ table) }
    ensures small { table.vars ≤ 7 → result ≡ Use (shannon_of table) }
{
    match shannon(table) {
        Ok(recipe) => Proposal::Use(recipe),
        Err(_) => Proposal::None,
    }
}

/// The recipe of `table` by the factored form of its irredundant sum of products, as `lnet_sop::isop` (both bounds the table)
/// and `lnet_sop::factor` say; `None` exactly where the form has more than 128 steps, and `NoMemory` where memory runs out.
pub fn factor_proposal(alloc: Global, table: Table) -> Proposal
    ensures recipe { result ≢ NoMemory → result ≡ proposal_of (form_of table) }
    ensures function { IfSome (recipe_in result) (λ r. sim r ≡ table) }
{
    let _vars = table.vars();
    let Ok(cover) = isop(alloc, table, table) else {
        return Proposal::NoMemory;
    };
    match factor(alloc, &cover) {
        Ok(recipe) => Proposal::Use(recipe),
        Err(FactorError::Full) => Proposal::None,
        Err(FactorError::NoMemory) => Proposal::NoMemory,
    }
}
