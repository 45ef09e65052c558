//! Transforms of functions of four variables.

ghost use Rattle.std.specs.Prelude.{◌≡◌, ℕ, ◌<◌, ◌≤◌, ◌^◌, ◌++◌, length, slice_index, replicate};
ghost use Rattle.lnet_tables.specs.Bits.{Rows, is_set, moved};
ghost use Rattle.lnet_npn.specs.Transforms.{IsTransform, transformed, inverse_of, place_in, turned};

use crate::exchanges::flipped;
use crate::words::{table_of, word_of};
use lnet_tables::Table;

/// A change of the order of four variables, of the complements of the variables, and of the complement of the value.
///
/// It takes the function `f` to the function `g(x) = out xor f(y)`, where `y_i` is `x_order[i]` xor bit `i` of `flips`.
/// The calls below want a lawful transform: `order` has each of 0 to 3 once, and `flips` is below 16. There are 768.
#[derive(Clone, Copy, Debug, PartialEq, Eq)]
pub struct Transform {
    /// Which variable of the new function is read where the old one reads variable `i`.
    pub order: [u8; 4],
    /// Bit `i` is set where what the old function reads as variable `i` is complemented.
    pub flips: u8,
    /// Whether the value is complemented.
    pub out: bool,
}

impl Transform {
    /// The transformed table, of a table of four variables. Takes at most four exchanges of rows and a permutation.
    pub fn apply(&self, table: Table) -> Table
        requires lawful { IsTransform self.now }
        requires four { table.vars ≡ 4 }
        ensures { result ≡ transformed self.now table }
    {
        let flipped = table_of(flip_all(word_of(&table), self.flips));
        let ordered = flipped.permute(padded(&self.order));
        if self.out { ordered.not() } else { ordered }
    }

    /// The transform that takes each transformed function back: `order` has at place `v` the place of `v` in this one's,
    /// bit `v` of `flips` is this one's bit at that place, and `out` is the same. Constant time.
    pub fn invert(&self) -> Transform
        requires lawful { IsTransform self.now }
        ensures value { result ≡ inverse_of self.now }
        ensures lawful { IsTransform result }
        ensures back { (a : Rows) → a.vars ≡ 4 → length a.bits ≡ 16 → transformed result (transformed self.now a) ≡ a }
    {
        let order = [
            place_of(&self.order, 0),
            place_of(&self.order, 1),
            place_of(&self.order, 2),
            place_of(&self.order, 3),
        ];
        Transform {
            order,
            flips: carried(self.flips, &order),
            out: self.out,
        }
    }
}

/// The place of `variable` in `order`, and 3 where it isn't there.
#[tactic(auto, unfolding(crate::specs::Transforms::place_in))]
fn place_of(order: &[u8; 4], variable: u8) -> u8
    ensures value { result ≡ place_in order.now variable }
    ensures below { result < 4 }
{
    if order[0] == variable {
        0
    } else if order[1] == variable {
        1
    } else if order[2] == variable {
        2
    } else {
        3
    }
}

/// The first four of ten entries, with zeros after them.
fn padded(order: &[u8; 4]) -> [u8; 10]
    ensures { result ≡ order.now ++ replicate 6 0 }
{
    [order[0], order[1], order[2], order[3], 0, 0, 0, 0, 0, 0]
}

/// The number whose bit `v` is bit `order[v]` of `flips`.
fn carried(flips: u8, order: &[u8; 4]) -> u8
    requires { (i : ℕ) → i < 4 → slice_index order.now i < 4 }
    ensures { result ≡ moved flips order.now 4 }
{
    let mut out = 0u8;
    for variable in 0..4u8 {
        if (flips >> order[variable as usize]) & 1 == 1 {
            out += 1 << variable;
        }
    }
    out
}

/// The rows of `word` with the variables of the set bits of `flips` complemented.
fn flip_all(word: u16, flips: u8) -> u16
    requires { flips < 16 }
    ensures { (x : ℕ) → x < 16 → is_set result x ≡ is_set word (turned flips x) }
{
    let mut out = word;
    for variable in 0..4u8 {
        if (flips >> variable) & 1 == 1 {
            out = flipped(out, variable);
        }
    }
    out
}
