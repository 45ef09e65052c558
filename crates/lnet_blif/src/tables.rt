//! Covers that go on, and where the next line stands.

ghost use Rattle.std.specs.Prelude.{◌≡◌, IfOk, IsTrue};
ghost use Rattle.lnet_edge.specs.Covers.{is_row};
ghost use Rattle.lnet_blif.specs.Listing.{first_value, table_view, table_with, with_row, place_view, position_of};

use crate::statements::Position;
use lnet_edge::{CoverRows, Wire, WireRef};
use smallvec::SmallVec;
use std::alloc::{AllocError, Global};

/// A cover that goes on.
#[derive(Drop)]
pub(crate) struct Table {
    /// The wire that it drives.
    pub target: Wire,
    /// Its operands.
    pub operands: SmallVec<WireRef, 4>,
    /// Its rows so far, with the value of the first.
    pub rows: CoverRows,
}

/// Where the next line stands, with the cover that goes on there.
#[derive(Drop)]
pub(crate) enum Place {
    /// Before each line that isn't blank.
    First,
    /// Outside covers.
    Outside,
    /// In a cover.
    Inside(Table),
    /// Behind `.end`.
    Behind,
}

impl Table {
    /// The value of the first row.
    fn first_value(&self) -> Option<bool>
        ensures { result ≡ first_value self.now.rows.value self.now.rows.rows }
    {
        if self.rows.len() == 0 {
            None
        } else {
            Some(self.rows.value())
        }
    }

    /// The cover with one more row, a byte `0`, `1` or `-` for each operand. The first row says the value.
    pub(crate) fn with_row(
        self,
        alloc: Global,
        cells: &[u8],
        value: bool,
    ) -> Result<Table, AllocError>
        requires { IsTrue (is_row cells.now) }
        ensures { IfOk result (λ t. table_view t ≡ table_with (table_view self) (record { cells = cells.now; value = value })) }
    {
        let Table {
            target,
            operands,
            rows,
        } = self;
        let mut rows = if rows.len() == 0 {
            CoverRows::new(alloc, value)
        } else {
            rows
        };
        rows.push(cells)?;
        Ok(Table {
            target,
            operands,
            rows,
        })
    }
}

impl Place {
    /// The position of the next line.
    pub(crate) fn position(&self) -> Position
        ensures { result ≡ position_of (place_view self.now) }
    {
        match self {
            Place::First => Position::First,
            Place::Outside => Position::Outside,
            Place::Inside(table) => Position::Inside(table.operands.len(), table.first_value()),
            Place::Behind => Position::Behind,
        }
    }

    /// The place behind a row, which is a byte `0`, `1` or `-` for each operand.
    pub(crate) fn with_row(
        self,
        alloc: Global,
        cells: &[u8],
        value: bool,
    ) -> Result<Place, AllocError>
        requires { IsTrue (is_row cells.now) }
        ensures { IfOk result (λ p. place_view p ≡ with_row (place_view self) (record { cells = cells.now; value = value })) }
    {
        match self {
            Place::Inside(table) => Ok(Place::Inside(table.with_row(alloc, cells, value)?)),
            other => Ok(other),
        }
    }
}
