//! Laws of names and their wires.

ghost use Rattle.std.specs.Prelude.{◌≡◌, ◌<◌, ◌≤◌, ℕ, List, length, IsTrue};
ghost use Rattle.lnet_wires.specs.Naming.{is_seen, with_name, wire_of};

/// Names that were seen have different wires, from 1 to the count of the names, which stay as further names are seen.
pub fn wires_tell_names_apart()
    ensures apart { (names : List (List ℕ)) (a b : List ℕ) → IsTrue (is_seen names a) → IsTrue (is_seen names b) → wire_of names a ≡ wire_of names b → a ≡ b }
    ensures range { (names : List (List ℕ)) (a : List ℕ) → IsTrue (is_seen names a) → (0 < wire_of names a) × (wire_of names a ≤ length names) }
    ensures stay { (names : List (List ℕ)) (a b : List ℕ) → IsTrue (is_seen names a) → wire_of (with_name names b) a ≡ wire_of names a }
    ensures seen { (names : List (List ℕ)) (a : List ℕ) → IsTrue (is_seen (with_name names a) a) }
{}
