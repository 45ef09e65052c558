//! The hash of a key, and the comparison of two.

ghost use Rattle.std.specs.Prelude.{◌≡◌, ◌↔◌, ◌<◌, IsTrue};
ghost use Rattle.lnet_strash.specs.Keys as keys;

use lnet_gates::{Key, Op};

/// The multiplier of FxHash.
const MULTIPLIER: u64 = 0x517c_c1b7_2722_0a95;

/// The hash with one word more. Constant time.
#[tactic(auto, unfolding(crate::specs::Keys::stirred))]
fn stir(hash: u64, word: u64) -> u64
    ensures { result ≡ keys.stirred hash word }
{
    (hash.rotate_left(5) ^ word).wrapping_mul(MULTIPLIER)
}

/// The operation as a number. Constant time.
fn operation(op: Op) -> u64
    ensures { result ≡ keys.operation op }
{
    match op {
        Op::And => 0,
        Op::Xor => 1,
        Op::Maj => 2,
        Op::Lut(_) => 3,
    }
}

/// The operation's table, 0 where it has none. Constant time.
fn table(op: Op) -> u64
    ensures { result ≡ keys.table op }
{
    match op {
        Op::Lut(table) => table,
        _ => 0,
    }
}

/// The hash of the key's operation, table and fanins. Constant time.
#[tactic(auto, unfolding(crate::specs::Keys::hash_of))]
fn hash_of(key: &Key) -> u64
    ensures { result ≡ keys.hash_of key.now }
{
    let start = stir(stir(0, operation(key.op)), table(key.op));
    key.fanins
        .as_slice()
        .iter()
        .fold(start, |hash, signal| stir(hash, signal.code()))
}

/// The chain of the key, of so many. Constant time.
#[tactic(auto, unfolding(crate::specs::Keys::chain_of))]
pub(crate) fn chain_of(chains: usize, key: &Key) -> usize
    requires { 0 < chains }
    ensures value { result ≡ keys.chain_of chains key.now }
    ensures within { result < chains }
{
    (hash_of(key) >> 32) as usize % chains
}

/// Whether the keys are one. Constant time.
pub(crate) fn is_same(a: &Key, b: &Key) -> bool
    ensures { IsTrue result ↔ (a.now ≡ b.now) }
{
    a.op == b.op && a.fanins.as_slice() == b.fanins.as_slice()
}
