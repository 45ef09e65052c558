//! The sixteen rows of a function of four variables in one number, and exchanges of rows within it.

ghost use Rattle.std.specs.Prelude.{◌≡◌, ℕ, ◌<◌, slice_index, not};
ghost use Rattle.lnet_tables.specs.Bits.{is_set, with_bit, moved};
ghost use Rattle.lnet_npn.specs.Exchanges.{IsExchange, IsArrangement, fetched};

/// Pairs of rows at one distance that change places: each row whose bit in `rows` is set, and the row `distance` above.
#[derive(Clone, Copy)]
pub(crate) struct Exchange {
    rows: u16,
    distance: u8,
}

/// No row changes places.
const KEEP: Exchange = Exchange {
    rows: 0,
    distance: 0,
};

/// For two variables, the rows in which the first is true and the second false with those in which it is the other way
/// round: the variables are exchanged.
const SWAP_01: Exchange = Exchange {
    rows: 0x2222,
    distance: 1,
};

const SWAP_02: Exchange = Exchange {
    rows: 0x0a0a,
    distance: 3,
};

const SWAP_03: Exchange = Exchange {
    rows: 0x00aa,
    distance: 7,
};

const SWAP_12: Exchange = Exchange {
    rows: 0x0c0c,
    distance: 2,
};

const SWAP_13: Exchange = Exchange {
    rows: 0x00cc,
    distance: 6,
};

const SWAP_23: Exchange = Exchange {
    rows: 0x00f0,
    distance: 4,
};

/// For each variable, the rows in which it is false with those in which it is true: the variable is complemented.
const FLIPS: [Exchange; 4] = [
    Exchange {
        rows: 0x5555,
        distance: 1,
    },
    Exchange {
        rows: 0x3333,
        distance: 2,
    },
    Exchange {
        rows: 0x0f0f,
        distance: 4,
    },
    Exchange {
        rows: 0x00ff,
        distance: 8,
    },
];

/// An order of the four variables, and the exchanges that bring a function's variables into it.
#[derive(Clone, Copy)]
pub(crate) struct Arrangement {
    pub(crate) order: [u8; 4],
    exchanges: [Exchange; 3],
}

/// The orders of four variables as lists, ascending.
pub(crate) const ARRANGEMENTS: [Arrangement; 24] = [
    Arrangement {
        order: [0, 1, 2, 3],
        exchanges: [KEEP, KEEP, KEEP],
    },
    Arrangement {
        order: [0, 1, 3, 2],
        exchanges: [SWAP_23, KEEP, KEEP],
    },
    Arrangement {
        order: [0, 2, 1, 3],
        exchanges: [SWAP_12, KEEP, KEEP],
    },
    Arrangement {
        order: [0, 2, 3, 1],
        exchanges: [SWAP_12, SWAP_13, KEEP],
    },
    Arrangement {
        order: [0, 3, 1, 2],
        exchanges: [SWAP_12, SWAP_23, KEEP],
    },
    Arrangement {
        order: [0, 3, 2, 1],
        exchanges: [SWAP_13, KEEP, KEEP],
    },
    Arrangement {
        order: [1, 0, 2, 3],
        exchanges: [SWAP_01, KEEP, KEEP],
    },
    Arrangement {
        order: [1, 0, 3, 2],
        exchanges: [SWAP_01, SWAP_23, KEEP],
    },
    Arrangement {
        order: [1, 2, 0, 3],
        exchanges: [SWAP_01, SWAP_02, KEEP],
    },
    Arrangement {
        order: [1, 2, 3, 0],
        exchanges: [SWAP_01, SWAP_02, SWAP_03],
    },
    Arrangement {
        order: [1, 3, 0, 2],
        exchanges: [SWAP_01, SWAP_02, SWAP_23],
    },
    Arrangement {
        order: [1, 3, 2, 0],
        exchanges: [SWAP_01, SWAP_03, KEEP],
    },
    Arrangement {
        order: [2, 0, 1, 3],
        exchanges: [SWAP_01, SWAP_12, KEEP],
    },
    Arrangement {
        order: [2, 0, 3, 1],
        exchanges: [SWAP_01, SWAP_12, SWAP_13],
    },
    Arrangement {
        order: [2, 1, 0, 3],
        exchanges: [SWAP_02, KEEP, KEEP],
    },
    Arrangement {
        order: [2, 1, 3, 0],
        exchanges: [SWAP_02, SWAP_03, KEEP],
    },
    Arrangement {
        order: [2, 3, 0, 1],
        exchanges: [SWAP_02, SWAP_13, KEEP],
    },
    Arrangement {
        order: [2, 3, 1, 0],
        exchanges: [SWAP_01, SWAP_03, SWAP_12],
    },
    Arrangement {
        order: [3, 0, 1, 2],
        exchanges: [SWAP_01, SWAP_12, SWAP_23],
    },
    Arrangement {
        order: [3, 0, 2, 1],
        exchanges: [SWAP_01, SWAP_13, KEEP],
    },
    Arrangement {
        order: [3, 1, 0, 2],
        exchanges: [SWAP_02, SWAP_23, KEEP],
    },
    Arrangement {
        order: [3, 1, 2, 0],
        exchanges: [SWAP_03, KEEP, KEEP],
    },
    Arrangement {
        order: [3, 2, 0, 1],
        exchanges: [SWAP_01, SWAP_02, SWAP_13],
    },
    Arrangement {
        order: [3, 2, 1, 0],
        exchanges: [SWAP_03, SWAP_12, KEEP],
    },
];

/// The rows of `word` with those of `exchange` in each other's places.
///
/// A delta swap: H. S. Warren, "Hacker's Delight", 2nd edition (2012), section 7-1. Five operations.
fn exchanged(word: u16, exchange: Exchange) -> u16
    requires { IsExchange exchange }
    ensures { (x : ℕ) → x < 16 → is_set result x ≡ is_set word (fetched exchange x) }
{
    let changed = ((word >> exchange.distance) ^ word) & exchange.rows;
    (word ^ changed) ^ (changed << exchange.distance)
}

/// The rows of `word` with variable `variable`, below 4, complemented.
pub(crate) fn flipped(word: u16, variable: u8) -> u16
    requires { variable < 4 }
    ensures { (x : ℕ) → x < 16 → is_set result x ≡ is_set word (with_bit x variable (not (is_set x variable))) }
{
    exchanged(word, FLIPS[variable as usize])
}

/// The word whose row `x` is the row of `word` whose bit `i` is bit `order[i]` of `x`.
pub(crate) fn arranged(word: u16, arrangement: &Arrangement) -> u16
    requires { IsArrangement arrangement.now }
    ensures { (x : ℕ) → x < 16 → is_set result x ≡ is_set word (moved x arrangement.now.order 4) }
{
    let first = exchanged(word, arrangement.exchanges[0]);
    let second = exchanged(first, arrangement.exchanges[1]);
    exchanged(second, arrangement.exchanges[2])
}
