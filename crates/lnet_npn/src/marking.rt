//! Marks on the functions of a class.

ghost use Rattle.std.specs.Prelude.{◌≡◌, ◌≤◌, ◌<◌, ◌⊎◌, ℕ, Bool, true, length, slice_set};
ghost use Rattle.lnet_npn.specs.Transforms.{IsTransform, image_of};
ghost use Rattle.lnet_npn.specs.declared.transforms.Transform.{Transform};
ghost use Rattle.lnet_npn.specs.Exchanges.{choice};
ghost use Rattle.lnet_npn.specs.Marks.{is_marked, IsImage};

use crate::canonical::images;
use crate::exchanges::ARRANGEMENTS;

/// Marks all functions of the class of a function, in a list with a place for each of the 65,536 functions of four variables,
/// by the functions' numbers. The other marks stay as they were. Makes the 768 functions by exchanges of rows.
pub fn mark_class(word: u16, marks: &mut [bool])
    requires { length marks.old ≡ 65536 }
    ensures len { length marks.new ≡ length marks.old }
    ensures kept { (m : ℕ) → is_marked marks.old m ≡ true → is_marked marks.new m ≡ true }
    ensures marked { (t : Transform) → IsTransform t → is_marked marks.new (image_of t word) ≡ true }
    ensures only { (m : ℕ) → is_marked marks.new m ≡ true → (is_marked marks.old m ≡ true) ⊎ IsImage word m }
{
    for arrangement in &ARRANGEMENTS {
        mark_all(marks, &images(word, arrangement));
    }
}

/// Marks the images of one order and their complements.
fn mark_all(marks: &mut [bool], images: &[u16; 16])
    requires { length marks.old ≡ 65536 }
    ensures len { length marks.new ≡ length marks.old }
    ensures kept { (m : ℕ) → is_marked marks.old m ≡ true → is_marked marks.new m ≡ true }
    ensures marked { (f : ℕ) (o : Bool) → f < 16 → is_marked marks.new (choice images.now f o) ≡ true }
    ensures only { (m : ℕ) → is_marked marks.new m ≡ true → (is_marked marks.old m ≡ true) ⊎ ((f : ℕ) × (o : Bool) × (f < 16) × (m ≡ choice images.now f o)) }
{
    for image in images {
        mark(marks, *image);
        mark(marks, !*image);
    }
}

/// Marks one function.
fn mark(marks: &mut [bool], number: u16)
    requires { length marks.old ≡ 65536 }
    ensures { marks.new ≡ slice_set marks.old number true }
{
    marks[number as usize] = true;
}
