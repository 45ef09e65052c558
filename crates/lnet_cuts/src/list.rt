//! Cuts and cut lists as they are kept: of a fixed size, so that they take no memory.

ghost use Rattle.std.specs.Prelude.{◌≡◌, ℕ, ◌<◌};
ghost use Rattle.lnet_tables.specs.Words.{word_bit};
ghost use Rattle.std.proofs.Common.{rules};
ghost use Rattle.std.specs.Cmp.Rules.{comparing};

use arrayvec::ArrayVec;
use lnet_gates::Node;
use lnet_model::Cut;
use lnet_tables::Table;
use std::marker::Model;

/// The most leaves of a cut.
pub const LEAVES: usize = 8;
/// The words of a table.
pub const WORDS: usize = 4;
/// The most cuts of a list, the trivial one with them.
pub const CUTS: usize = 17;

/// A cut as it is kept, in 72 bytes: at most 8 leaves, and the node's function of them. A contract sees the leaves, ascending,
/// and the table, whose variable `i` is leaf `i`.
#[derive(Drop)]
pub struct StoredCut {
    pub(crate) leaves: ArrayVec<u32, LEAVES>,
    pub(crate) table: [u64; WORDS],
}

impl Model for StoredCut {
    ghost use Rattle.std.specs.Prelude.{length};
    ghost use Rattle.lnet_tables.specs.Bits.{by_rows};
    ghost use Rattle.lnet_tables.specs.Words.{word_bit};
    ghost use Rattle.lnet_model.specs.Cuts.{CutValue};
    ghost use Rattle.lnet_cuts.specs.Stored.{IsKept};

    ghost Value = { CutValue };

    ghost view = { λ c. record { leaves = c.leaves.items; table = by_rows (length c.leaves.items) (word_bit c.table) } };

    ghost invariant = { λ c. IsKept c.leaves.items c.table };
}

impl StoredCut {
    ghost use Rattle.std.specs.Prelude.{◌≡◌, ◌<◌, ◌≤◌, ◌^◌, length};
    ghost use Rattle.lnet_tables.specs.Bits.{row as row_of, by_rows};
    ghost use Rattle.lnet_tables.specs.Words.{word_bit};
    ghost use Rattle.lnet_model.specs.Cuts as spec;

    /// The leaves' numbers, ascending, at most 8. Constant time.
    pub fn leaves(&self) -> &[u32]
        ensures value { result.now ≡ self.now.leaves }
        ensures few { length result.now ≤ 8 }
        ensures vars { self.now.table.vars ≡ length self.now.leaves }
    {
        self.leaves.as_slice()
    }

    /// The table's rows: row `r` is bit `r % 64` of word `r / 64`, and every bit past the rows is 0. Constant time.
    pub fn words(&self) -> [u64; WORDS]
        ensures { self.now.table ≡ by_rows (length self.now.leaves) (word_bit result) }
    {
        self.table
    }

    /// The table's value at a row.
    pub(crate) fn bit(&self, row: usize) -> bool
        requires row { row < 2 ^ length self.now.leaves }
        requires few { row < 256 }
        ensures { result ≡ row_of self.now.table row }
    {
        (self.table[row / 64] >> (row % 64)) & 1 == 1
    }

    /// The cut again.
    pub(crate) fn copied(&self) -> StoredCut
        ensures { result ≡ self.now }
    {
        let mut leaves = ArrayVec::new();
        for leaf in self.leaves.as_slice() {
            leaves.push(*leaf);
        }
        StoredCut {
            leaves,
            table: self.table,
        }
    }

    /// The cut as a view answers it.
    fn given(&self) -> Cut
        ensures { result ≡ self.now }
    {
        let numbers = self.leaves();
        let mut leaves = ArrayVec::new();
        for leaf in numbers {
            leaves.push(Node(*leaf));
        }
        let table = Table::from_words(numbers.len() as u8, widened(self.table));
        Cut { leaves, table }
    }

    /// The one cut of the constant.
    pub(crate) fn constant() -> StoredCut
        ensures { result ≡ spec.constant_cut }
    {
        StoredCut {
            leaves: ArrayVec::new(),
            table: [0; WORDS],
        }
    }

    /// The cut of a node that is the node itself.
    pub(crate) fn trivial(n: Node) -> StoredCut
        ensures { result ≡ spec.trivial_cut n.0 }
    {
        let mut leaves = ArrayVec::new();
        leaves.push(n.0);
        StoredCut {
            leaves,
            table: [2, 0, 0, 0],
        }
    }

    /// The cut that a fanin gives to a gate of more than three fanins.
    pub(crate) fn own(n: Node) -> StoredCut
        ensures { result ≡ spec.own_cut n.0 }
    {
        if n.0 == 0 {
            StoredCut::constant()
        } else {
            StoredCut::trivial(n)
        }
    }
}

/// The words of a table of up to ten variables that has the rows of a table of up to eight.
fn widened(table: [u64; WORDS]) -> [u64; 16]
    ensures { (r : ℕ) → r < 256 → word_bit result r ≡ word_bit table r }
{
    [
        table[0], table[1], table[2], table[3], 0, 0, 0, 0, 0, 0, 0, 0, 0, 0, 0, 0,
    ]
}

impl Default for StoredCut {
    fn default() -> StoredCut {
        StoredCut {
            leaves: ArrayVec::new(),
            table: [0; WORDS],
        }
    }
}

impl PartialEq for StoredCut {
    ghost use Rattle.lnet_cuts.specs.Stored.{equal_cuts};
    ghost use Rattle.lnet_cuts.specs.Agreeing.{cuts-per};

    ghost eq = { equal_cuts };

    ghost laws = { cuts-per };

    /// Whether the two have the same leaves and the same table. Constant time.
    fn eq(&self, other: &StoredCut) -> bool {
        self.leaves == other.leaves && self.table == other.table
    }
}

/// The cuts of a node, at most 17, the trivial one last. A contract sees them in order.
#[derive(Drop)]
pub struct CutList {
    pub(crate) cuts: ArrayVec<StoredCut, CUTS>,
}

impl Model for CutList {
    ghost use Rattle.std.specs.Prelude.{List};
    ghost use Rattle.lnet_model.specs.Cuts.{CutValue};

    ghost Value = { List CutValue };

    ghost view = { λ l. l.cuts.items };
}

impl CutList {
    ghost use Rattle.std.specs.Prelude.{◌≡◌, ◌≤◌, length, slice_get};

    /// The cuts in order, at most 17. Constant time.
    pub fn as_slice(&self) -> &[StoredCut]
        ensures value { result.now ≡ self.now }
        ensures few { length result.now ≤ 17 }
    {
        self.cuts.as_slice()
    }

    /// Cut `i` in order; `None` exactly where there are no more than `i`.
    pub(crate) fn cut_at(&self, i: u8) -> Option<Cut>
        ensures { result ≡ slice_get self.now i }
    {
        let cuts = self.as_slice();
        if (i as usize) < cuts.len() {
            Some(cuts[i as usize].given())
        } else {
            None
        }
    }
}

impl PartialEq for CutList {
    ghost use Rattle.lnet_cuts.specs.Stored.{equal_lists};
    ghost use Rattle.lnet_cuts.specs.Agreeing.{lists-per};

    ghost eq = { equal_lists };

    ghost laws = { lists-per };

    /// Whether the two have the same cuts in order. Linear in the cuts.
    fn eq(&self, other: &CutList) -> bool {
        self.cuts == other.cuts
    }
}

impl Eq for CutList {
    ghost use Rattle.lnet_cuts.specs.Agreeing.{lists-equiv};

    ghost laws = { lists-equiv };
}
