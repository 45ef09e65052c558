//! Transforms of recipes.

ghost use Rattle.std.specs.Prelude.{◌≡◌, ℕ, ◌<◌, ◌≤◌, length};
ghost use Rattle.lnet_tables.specs.Recipes.{sim};
ghost use Rattle.lnet_npn.specs.Transforms.{IsTransform, transformed};
ghost use Rattle.lnet_npn.specs.Rewiring.{complemented_if, is_leaf as names_leaf, rewired_lit, rewired_step, rewired};

use crate::transforms::Transform;
use lnet_tables::{Lit, Recipe, Step};

impl Transform {
    /// The recipe of the transformed function, of a recipe with four leaves: leaf `i` is read as leaf `order[i]`,
    /// complemented where bit `i` of `flips` is set, and the root is complemented where `out` is set. There are as many
    /// steps as before, in their places. A few operations for each step.
    pub fn on_recipe(&self, recipe: &Recipe) -> Recipe
        requires lawful { IsTransform self.now }
        requires four { recipe.now.leaves ≡ 4 }
        ensures value { result ≡ rewired self.now recipe.now }
        ensures count { length result.steps ≡ length recipe.now.steps }
        ensures function { sim result ≡ transformed self.now (sim recipe.now) }
    {
        let mut result = Recipe::new(4);
        for i in 0..recipe.len() {
            // not: refused, since a recipe has at most 128 steps
            let _ = result.push(self.on_step(recipe.step(i)));
        }
        let root = self.on_lit(recipe.root());
        result.set_root(complement_if(root, self.out));
        result
    }

    /// The step with its operands rewired.
    fn on_step(&self, step: Step) -> Step
        requires { IsTransform self.now }
        ensures { result ≡ rewired_step self.now step }
    {
        Step {
            op: step.op,
            a: self.on_lit(step.a),
            b: self.on_lit(step.b),
            c: self.on_lit(step.c),
        }
    }

    /// The literal in place of `lit`: another one for each leaf.
    #[tactic(auto, unfolding(crate::specs::Rewiring::rewired_lit))]
    fn on_lit(&self, lit: Lit) -> Lit
        requires { IsTransform self.now }
        ensures { result ≡ rewired_lit self.now lit }
    {
        let place = lit.0 / 2;
        if !is_leaf(place) {
            return lit;
        }
        let leaf = (place - 1) as u8;
        let read = Lit(2 * (self.order[leaf as usize] as u16 + 1) + lit.0 % 2);
        complement_if(read, (self.flips >> leaf) & 1 == 1)
    }
}

/// Whether a place of a recipe with four leaves is one of them.
fn is_leaf(place: u16) -> bool
    ensures { result ≡ names_leaf place }
{
    1 <= place && place <= 4
}

/// The literal, or its complement.
#[tactic(auto, unfolding(lnet_tables::specs::Shannon::other))]
fn complement_if(lit: Lit, complement: bool) -> Lit
    ensures { result ≡ complemented_if complement lit }
{
    if complement {
        Lit(2 * (lit.0 / 2) + 1 - lit.0 % 2)
    } else {
        lit
    }
}
