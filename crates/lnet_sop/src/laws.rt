//! What the definitions of covers and factored forms say of plain cases.

ghost use Rattle.std.specs.Prelude.{◌≡◌, ◌≤◌, ◌<◌, ◌+◌, ℕ, List, [], ◌∷◌, false, true, not};
ghost use Rattle.lnet_tables.specs.Bits.{Rows, depends_on, equal_rows};
ghost use Rattle.lnet_tables.specs.Shannon.{given};
ghost use Rattle.lnet_sop.specs.declared.cover.Cube.{Cube};
ghost use Rattle.lnet_sop.specs.Isop.{half};
ghost use Rattle.lnet_sop.specs.Factored.{literal, uses, most_common, conjunction, form_of};

/// The cover between two bounds passes a variable over exactly where neither depends on it: the halves of a table by its
/// last variable are one exactly where the table doesn't depend on this variable.
pub fn unused_variables_are_passed_over()
    ensures { (n : ℕ) (t : Rows) → t.vars ≡ n + 1 → equal_rows (half t n false) (half t n true) ≡ not (depends_on t n) }
{}

/// No literal of the first variables stands in more cubes than the one that is divided by, and those before it stand in
/// fewer.
pub fn divisors_stand_in_most_cubes()
    ensures most { (n k : ℕ) (cs : List Cube) → k < n → uses cs (literal k) ≤ uses cs (most_common n cs) }
    ensures first { (n k : ℕ) (cs : List Cube) → k + 2 < (most_common n cs).0 → uses cs (literal k) < uses cs (most_common n cs) }
{}

/// No cube gives false, and one cube gives the and of its literals.
pub fn plain_forms()
    ensures none { (n p : ℕ) → form_of n p [] ≡ given (record { 0 = 0 }) }
    ensures one { (n p : ℕ) (c : Cube) → form_of n p (c ∷ []) ≡ conjunction n p c }
{}
