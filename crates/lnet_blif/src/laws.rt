//! Laws of the definitions.

ghost use Rattle.std.specs.Prelude.{◌≡◌, ℕ, Bool, true, false, List, [], ◌∷◌, Ok, Err, codes};
ghost use Rattle.lnet_edge.specs.declared.fault.Fault.TheVariants as faults;
ghost use Rattle.lnet_bliflines.specs.Words.{fault_on};
ghost use Rattle.lnet_blif.specs.Statements.{Model, Inputs, Outputs, Names, Row, End};
ghost use Rattle.lnet_blif.specs.Texts.{statements_of};

/// Contents, and what their lines say.
pub fn lines_of_each_form()
    ensures ports { statements_of (codes ".model t\n.inputs a \\\n b # c\n.outputs f\n.end\n") ≡ Ok (Model ∷ Inputs (codes "a" ∷ codes "b" ∷ []) ∷ Outputs (codes "f" ∷ []) ∷ End ∷ []) }
    ensures covers { statements_of (codes ".names a b f\n1- 0\n\n-1 0\n.names g\n1") ≡ Ok (Names (codes "a" ∷ codes "b" ∷ []) (codes "f") ∷ Row (record { cells = codes "1-"; value = false }) ∷ Row (record { cells = codes "-1"; value = false }) ∷ Names [] (codes "g") ∷ Row (record { cells = []; value = true }) ∷ []) }
{}

/// Contents with a line that is refused, and their faults: the bytes of a line are looked at before what it says.
pub fn lines_of_no_form()
    ensures bytes { (statements_of (codes ".frob\n\t\u{1}") ≡ Err (fault_on 1 faults.Unsupported)) × (statements_of (codes ".frob \u{1}\\\n") ≡ Err (fault_on 1 faults.Syntax)) × (statements_of (codes ".frob \\\n") ≡ Err (fault_on 2 faults.Missing)) }
    ensures rows { (statements_of (codes ".names a f\n1 1\n0 0") ≡ Err (fault_on 3 faults.Cover)) × (statements_of (codes ".names a f\n.inputs b\n0 0") ≡ Err (fault_on 3 faults.Syntax)) }
    ensures places { (statements_of (codes ".end\n.end") ≡ Err (fault_on 2 faults.Unsupported)) × (statements_of (codes "\n.model t\n.model u") ≡ Err (fault_on 3 faults.Unsupported)) × (statements_of (codes ".latch a b") ≡ Err (fault_on 1 faults.Sequential)) }
{}
