//! Steps of recipes: what they compute, and the literals that name their operands.

ghost use Rattle.std.specs.Prelude.{◌≡◌};
ghost use Rattle.lnet_tables.specs.Recipes.{place};
ghost use Rattle.lnet_tables.specs.Shannon.{other};

/// A literal of a recipe: `2 * place + complement`.
///
/// Place 0 is the constant false, places 1 to `leaves` are the leaves in order, and then come the steps in order.
/// So `Lit(0)` is false and `Lit(1)` is true.
#[derive(Clone, Copy, Debug, Default, PartialEq, Eq)]
pub struct Lit(pub u16);

impl Lit {
    /// The literal of the same place with the other complement. Constant time.
    pub fn complement(self) -> Lit
        ensures value { result ≡ other self }
        ensures place { place result ≡ place self }
    {
        if self.0 % 2 == 0 {
            Lit(self.0 + 1)
        } else {
            Lit(self.0 - 1)
        }
    }
}

/// What a step computes of the values of its operands.
#[derive(Clone, Copy, Debug, Default, PartialEq, Eq)]
pub enum StepOp {
    /// Both of two.
    #[default]
    And,
    /// Exactly one of two.
    Xor,
    /// At least two of three.
    Maj,
}

/// A step of a recipe.
#[derive(Clone, Copy, Debug, Default, PartialEq, Eq)]
pub struct Step {
    /// What the step computes.
    pub op: StepOp,
    /// The first operand.
    pub a: Lit,
    /// The second operand.
    pub b: Lit,
    /// The third operand of `Maj`; `Lit(0)` where two operands are used.
    pub c: Lit,
}
