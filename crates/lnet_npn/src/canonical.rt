//! The least table of a class, and the first way back from it.

ghost use Rattle.std.specs.Prelude.{◌≡◌, ◌≢◌, ℕ, Bool, ◌<◌, ◌≤◌, ◌+◌, ◌*◌, ◌^◌, slice_index, IfSome, None, false, not, min};
ghost use Rattle.lnet_tables.specs.Bits.{Rows, is_set, with_bit};
ghost use Rattle.lnet_npn.specs.Transforms.{IsTransform, image_of, rank_of, transformed, IsLeastOf, IsFirst};
ghost use Rattle.lnet_npn.specs.Exchanges.{IsArrangement, IsAmong, IsFirstAmong, choice, image_at};

use crate::exchanges::{ARRANGEMENTS, Arrangement, arranged, flipped};
use crate::transforms::Transform;
use crate::words::{table_of, word_of};
use lnet_tables::Table;

/// The least table of the class of `table`, a table of four variables, and the first transform that takes it back.
///
/// The class is the 768 tables that the transforms make of `table`. Tables are compared as numbers whose bit `r` is row
/// `r`, and transforms by `order` as a list, then `flips`, then `out`, false before true. All tables of a class have one
/// least table; there are 222 classes.
///
/// Classes after S. W. Golomb, "On the classification of Boolean functions", IRE Transactions on Circuit Theory 6
/// (1959). Tries all transforms: for each of 24 orders, twice, at most three exchanges of rows in a number of 16 bits,
/// and 15 exchanges for the complements.
pub fn canonise(table: Table) -> (Table, Transform)
    requires { table.vars ≡ 4 }
    ensures least { IsLeastOf table result.0 }
    ensures back { IsFirst result.1 result.0 table }
    ensures class { (t : Transform) (m : Rows) → IsTransform t → IsLeastOf (transformed t table) m → result.0 ≡ m }
{
    let word = word_of(&table);
    let least = least_image(word);
    (table_of(least), first_back(least, word))
}

/// The least number that a transform makes of `word`.
fn least_image(word: u16) -> u16
    ensures made { (t : Transform) × (IsTransform t × (result ≡ image_of t word)) }
    ensures least { (t : Transform) → IsTransform t → result ≤ image_of t word }
{
    let mut best = word;
    for arrangement in &ARRANGEMENTS {
        best = least_of(&images(word, arrangement), best);
    }
    best
}

/// The first transform that makes `word` of `least`.
fn first_back(least: u16, word: u16) -> Transform
    requires { (t : Transform) × (IsTransform t × (image_of t least ≡ word)) }
    ensures lawful { IsTransform result }
    ensures back { image_of result least ≡ word }
    ensures first { (t : Transform) → IsTransform t → rank_of t < rank_of result → image_of t least ≢ word }
{
    for arrangement in &ARRANGEMENTS {
        if let Some(back) = first_of(&images(least, arrangement), arrangement.order, word) {
            return back;
        }
    }
    // not: reached, since some transform makes the word
    Transform {
        order: [0, 1, 2, 3],
        flips: 0,
        out: false,
    }
}

/// What the transforms of one order make of `word`, by their flips, without a complement of the value.
pub(crate) fn images(word: u16, arrangement: &Arrangement) -> [u16; 16]
    requires { IsArrangement arrangement.now }
    ensures { (f : ℕ) → f < 16 → slice_index result f ≡ image_at arrangement.now.order f false word }
{
    let mut images = [arranged(word, arrangement); 16];
    double(&mut images, 1, arrangement.order[0]);
    double(&mut images, 2, arrangement.order[1]);
    double(&mut images, 4, arrangement.order[2]);
    double(&mut images, 8, arrangement.order[3]);
    images
}

/// Fills the places from `half` on with the first `half` ones, a variable complemented.
fn double(images: &mut [u16; 16], half: usize, variable: u8)
    requires half { half ≤ 8 }
    requires variable { variable < 4 }
    ensures kept { (f : ℕ) → f < half → slice_index images.new f ≡ slice_index images.old f }
    ensures more { (f x : ℕ) → f < half → x < 16 → is_set (slice_index images.new (f + half)) x ≡ is_set (slice_index images.old f) (with_bit x variable (not (is_set x variable))) }
    ensures fit { (f : ℕ) → slice_index images.new f < 2 ^ 16 }
{
    for flips in 0..half {
        images[flips + half] = flipped(images[flips], variable);
    }
}

/// The least of `best`, the images and their complements.
fn least_of(images: &[u16; 16], best: u16) -> u16
    ensures best { result ≤ best }
    ensures below { (f : ℕ) (o : Bool) → f < 16 → result ≤ choice images.now f o }
    ensures made { IsAmong images.now best result }
{
    let mut least = best;
    for image in images {
        least = least_of_three(least, *image, !*image);
    }
    least
}

/// The least of three numbers.
fn least_of_three(a: u16, b: u16, c: u16) -> u16
    ensures { result ≡ min a (min b c) }
{
    a.min(b.min(c))
}

/// The first of the transforms of one order, whose images are given, that makes `word`.
fn first_of(images: &[u16; 16], order: [u8; 4], word: u16) -> Option<Transform>
    ensures some { IfSome result (λ t. IsFirstAmong images.now order word t) }
    ensures none { result ≡ None → (f : ℕ) (o : Bool) → f < 16 → choice images.now f o ≢ word }
{
    for flips in 0..16u8 {
        let image = images[flips as usize];
        if image == word {
            return Some(Transform {
                order,
                flips,
                out: false,
            });
        }
        if !image == word {
            return Some(Transform {
                order,
                flips,
                out: true,
            });
        }
    }
    None
}
