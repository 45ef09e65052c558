//! Covers: rows over the operands of an equation.

ghost use Rattle.std.specs.Prelude.{◌≡◌, ◌<◌, ◌++◌, [], ◌∷◌, length, IsTrue, OnOk, OnErr, slice_get, Some};
ghost use Rattle.std.specs.List.{list_all};
ghost use Rattle.lnet_edge.specs.Covers.{is_cell};

use smallvec::SmallVec;
use std::alloc::{AllocError, Global};
use std::marker::Model;

/// The rows of a cover, in the order of a file, and the value that its target has where a row holds.
///
/// A row has a byte for each operand, the first first: it holds where each operand is false at `0` and true at `1`, and
/// says nothing of an operand at `-`. A contract sees the value and the list of rows, each as the list of its bytes.
#[derive(Drop)]
pub struct CoverRows {
    value: bool,
    rows: Vec<SmallVec<u8, 8>>,
}

impl Model for CoverRows {
    ghost use Rattle.std.specs.Prelude.{map, IsTrue};
    ghost use Rattle.std.specs.List.{list_all};
    ghost use Rattle.lnet_edge.specs.Covers.{CoverValue, is_row};

    ghost Value = { CoverValue };

    ghost view = { λ c. record { value = c.value; rows = map (λ r. r.items) c.rows.items } };

    ghost invariant = { λ c. IsTrue (list_all is_row (map (λ r. r.items) c.rows.items)) };
}

impl CoverRows {
    /// A cover without rows, whose rows say that the target has this value. It takes no memory; `alloc` is where the
    /// rows are kept.
    pub fn new(alloc: Global, value: bool) -> CoverRows
        ensures { result ≡ record { value = value; rows = [] } }
    {
        CoverRows {
            value,
            rows: Vec::new(alloc),
        }
    }

    /// Adds a row behind the others: a byte `0`, `1` or `-` for each operand, in order. Constant time, amortized, beside
    /// the copy of the row.
    ///
    /// # Errors
    /// `AllocError` where memory runs out. The cover is then as it was.
    pub fn push(&mut self, row: &[u8]) -> Result<(), AllocError>
        requires { IsTrue (list_all is_cell row.now) }
        ensures ok { OnOk result (self.new ≡ record self.old { rows = self.old.rows ++ row.now ∷ [] }) }
        ensures err { OnErr result (self.new ≡ self.old) }
    {
        let row = SmallVec::from_slice(*self.rows.allocator(), row)?;
        self.rows.push(row)?;
        Ok(())
    }

    /// The value that the target has where a row holds.
    pub fn value(&self) -> bool
        ensures { result ≡ self.now.value }
    {
        self.value
    }

    /// How many rows there are.
    pub fn len(&self) -> usize
        ensures { result ≡ length self.now.rows }
    {
        self.rows.len()
    }

    /// The bytes of row `i`, counted from 0.
    pub fn row(&self, i: usize) -> &[u8]
        requires { i < length self.now.rows }
        ensures row { slice_get self.now.rows i ≡ Some result.now }
        // What the type keeps of each row.
        ensures cells { IsTrue (list_all is_cell result.now) }
    {
        self.rows[i].as_slice()
    }
}
