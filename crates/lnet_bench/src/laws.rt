//! Laws of the definitions.

ghost use Rattle.std.specs.Prelude.{◌≡◌, ℕ, Bool, true, false, List, [], ◌∷◌, Ok, Err, codes};
ghost use Rattle.lnet_edge.specs.declared.fault.Fault.TheVariants as faults;
ghost use Rattle.lnet_edge.specs.declared.circuit.Rule.TheVariants.{And, Or, Xor, Lut};
ghost use Rattle.lnet_bench.specs.Statements.{Input, Output, Gate, Constant, statement_of};

/// Lines of each form, with blanks around each part and in either letter case, and what they say.
pub fn lines_of_each_form()
    ensures ports { (statement_of (codes "INPUT(a)") ≡ Ok (Input (codes "a"))) × (statement_of (codes " output ( G.1 ) ") ≡ Ok (Output (codes "G.1"))) }
    ensures gates { (statement_of (codes "y = AND(a, b)") ≡ Ok (Gate (codes "y") (And false) (codes "a" ∷ codes "b" ∷ []))) × (statement_of (codes "y=nor(a,b,a)") ≡ Ok (Gate (codes "y") (Or true) (codes "a" ∷ codes "b" ∷ codes "a" ∷ []))) × (statement_of (codes "y = Xor ( a )") ≡ Ok (Gate (codes "y") (Xor false) (codes "a" ∷ []))) }
    ensures others { (statement_of (codes "y = NOT(a)") ≡ Ok (Gate (codes "y") (And true) (codes "a" ∷ []))) × (statement_of (codes "y = BUFF(a)") ≡ Ok (Gate (codes "y") (And false) (codes "a" ∷ []))) }
    ensures tables { (statement_of (codes "y = LUT 0xe8 (a, b, c)") ≡ Ok (Gate (codes "y") (Lut 232) (codes "a" ∷ codes "b" ∷ codes "c" ∷ []))) × (statement_of (codes "y = lut 0xA (a, b)") ≡ Ok (Gate (codes "y") (Lut 10) (codes "a" ∷ codes "b" ∷ []))) }
    ensures constants { (statement_of (codes "y = gnd") ≡ Ok (Constant (codes "y") false)) × (statement_of (codes "gnd=VDD") ≡ Ok (Constant (codes "gnd") true)) }
{}

/// Lines of no stated form, and their faults: the form of a line is looked at before the word of its gate, the digits of a
/// table before the count of its operands.
pub fn lines_of_no_form()
    ensures syntax { (statement_of (codes "INPUT(a) b") ≡ Err faults.Syntax) × (statement_of (codes "y = AND()") ≡ Err faults.Syntax) × (statement_of (codes "y = AND(a b)") ≡ Err faults.Syntax) × (statement_of (codes "y = a") ≡ Err faults.Syntax) × (statement_of (codes "y = FOO(a,)") ≡ Err faults.Syntax) }
    ensures counts { (statement_of (codes "y = NOT(a, b)") ≡ Err faults.Syntax) × (statement_of (codes "y = LUT 0x0 (a, a, a, a, a, a, a)") ≡ Err faults.Syntax) }
    ensures words { (statement_of (codes "y = FOO(a)") ≡ Err faults.Unsupported) × (statement_of (codes "y = DFF(a)") ≡ Err faults.Sequential) × (statement_of (codes "y = LUT(a)") ≡ Err faults.Syntax) × (statement_of (codes "y = LUT 0X2 (a)") ≡ Err faults.Syntax) }
    ensures tables { (statement_of (codes "y = LUT 0x (a)") ≡ Err faults.Cover) × (statement_of (codes "y = LUT 0xg (a, a, a, a, a, a, a)") ≡ Err faults.Cover) × (statement_of (codes "y = LUT 0x4 (a)") ≡ Err faults.Cover) }
{}
