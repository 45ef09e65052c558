//! The words of the tables that all others are made from: all true, and a single variable.

ghost use Rattle.std.specs.Prelude.{◌≡◌, ℕ, ◌^◌, ◌<◌, ◌≤◌, ◌-◌, nat_lt, not};
ghost use Rattle.lnet_tables.specs.Bits.{is_set};
ghost use Rattle.lnet_tables.specs.Words.{word_bit};

/// A word of 64 rows that are all true.
const ALL: u64 = u64::MAX;

/// The words whose rows below `2^vars` are true, for each number of variables.
const ONES: [[u64; 16]; 11] = [
    [0x1, 0, 0, 0, 0, 0, 0, 0, 0, 0, 0, 0, 0, 0, 0, 0],
    [0x3, 0, 0, 0, 0, 0, 0, 0, 0, 0, 0, 0, 0, 0, 0, 0],
    [0xf, 0, 0, 0, 0, 0, 0, 0, 0, 0, 0, 0, 0, 0, 0, 0],
    [0xff, 0, 0, 0, 0, 0, 0, 0, 0, 0, 0, 0, 0, 0, 0, 0],
    [0xffff, 0, 0, 0, 0, 0, 0, 0, 0, 0, 0, 0, 0, 0, 0, 0],
    [0xffffffff, 0, 0, 0, 0, 0, 0, 0, 0, 0, 0, 0, 0, 0, 0, 0],
    [ALL, 0, 0, 0, 0, 0, 0, 0, 0, 0, 0, 0, 0, 0, 0, 0],
    [ALL, ALL, 0, 0, 0, 0, 0, 0, 0, 0, 0, 0, 0, 0, 0, 0],
    [ALL, ALL, ALL, ALL, 0, 0, 0, 0, 0, 0, 0, 0, 0, 0, 0, 0],
    [
        ALL, ALL, ALL, ALL, ALL, ALL, ALL, ALL, 0, 0, 0, 0, 0, 0, 0, 0,
    ],
    [
        ALL, ALL, ALL, ALL, ALL, ALL, ALL, ALL, ALL, ALL, ALL, ALL, ALL, ALL, ALL, ALL,
    ],
];

/// The words whose row `r` is bit `i` of `r`, for each `i`.
const VARIABLES: [[u64; 16]; 10] = [
    [0xaaaaaaaaaaaaaaaa; 16],
    [0xcccccccccccccccc; 16],
    [0xf0f0f0f0f0f0f0f0; 16],
    [0xff00ff00ff00ff00; 16],
    [0xffff0000ffff0000; 16],
    [0xffffffff00000000; 16],
    [
        0, ALL, 0, ALL, 0, ALL, 0, ALL, 0, ALL, 0, ALL, 0, ALL, 0, ALL,
    ],
    [
        0, 0, ALL, ALL, 0, 0, ALL, ALL, 0, 0, ALL, ALL, 0, 0, ALL, ALL,
    ],
    [
        0, 0, 0, 0, ALL, ALL, ALL, ALL, 0, 0, 0, 0, ALL, ALL, ALL, ALL,
    ],
    [
        0, 0, 0, 0, 0, 0, 0, 0, ALL, ALL, ALL, ALL, ALL, ALL, ALL, ALL,
    ],
];

/// The words whose rows below `2^vars` are true, and no others.
pub(crate) fn ones(vars: u8) -> [u64; 16]
    requires { vars ≤ 10 }
    ensures { (r : ℕ) → word_bit result r ≡ nat_lt r (2 ^ vars) }
{
    ONES[vars as usize]
}

/// The words whose row `r` is bit `index` of `r`.
pub(crate) fn variable_words(index: u8) -> [u64; 16]
    requires { index < 10 }
    ensures { (r : ℕ) → r < 1024 → word_bit result r ≡ is_set r index }
{
    VARIABLES[index as usize]
}

/// The word of the rows whose bit `index` is 1.
pub fn high_rows(index: usize) -> u64
    requires { index < 6 }
    ensures { (r : ℕ) → r < 64 → is_set result r ≡ is_set r index }
{
    VARIABLES[index][0]
}

/// The word of the rows whose bit `index` is 0.
pub fn low_rows(index: usize) -> u64
    requires { index < 6 }
    ensures { (r : ℕ) → r < 64 → is_set result r ≡ not (is_set r index) }
{
    !high_rows(index)
}

/// The word of the first `2^count` rows: those whose bits from the `count`-th on are 0.
pub fn first_rows(count: usize) -> u64
    requires { count ≤ 6 }
    ensures rows { (r : ℕ) → r < 64 → is_set result r ≡ nat_lt r (2 ^ count) }
    ensures value { result ≡ 2 ^ 2 ^ count - 1 }
    ensures fits { result < 2 ^ 2 ^ count }
{
    ONES[count][0]
}
