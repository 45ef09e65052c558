//! A law of cut lists: what a cut's table says.

ghost use Rattle.std.specs.Prelude.{◌≡◌, ℕ, Bool, All};
ghost use Rattle.lnet_model.specs.Networks.{NetworkValue};
ghost use Rattle.lnet_model.specs.Along.{Acyclic, IsWhole};
ghost use Rattle.lnet_model.specs.Values.{node_value};
ghost use Rattle.lnet_model.specs.Cuts.{cut_meaning, cuts};

/// Each cut of a node has the node's value, whatever values `a` the inputs have: the cut's table at the values of its leaves is
/// the value of node `n`. So it is for each whole network without cycles, and for any `size` and `limit`.
pub fn cuts_have_their_values()
    ensures { (N : NetworkValue) (a : ℕ → Bool) (size limit n : ℕ) → Acyclic N → IsWhole N → All (λ c. cut_meaning (node_value N a) c ≡ node_value N a n) (cuts N size limit n) }
{}
