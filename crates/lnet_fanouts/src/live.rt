//! Which numbers are live.

ghost use Rattle.std.specs.Prelude.{◌≡◌, ◌≤◌, ◌+◌, ◌++◌, length, replicate, false, slice_index_or, vec_len, vec_capacity};

use lnet_gates::Node;

/// Whether the number is said to be live. Constant time.
pub(crate) fn is_live(live: &Vec<bool>, n: Node) -> bool
    ensures { result ≡ slice_index_or live.now.items n.0 false }
{
    match live.get(n.0 as usize) {
        Some(live) => *live,
        None => false,
    }
}

/// So many numbers more, which aren't live, and for which there is room. Linear in them.
pub(crate) fn extend(live: &mut Vec<bool>, more: usize)
    requires { vec_len live.old + more ≤ vec_capacity live.old }
    ensures { live.new.items ≡ live.old.items ++ replicate more false }
{
    'numbers: for _ in 0..more {
        live.push_reserved(false);
    }
}

/// Says that no number is live. Linear in them, and no memory.
pub(crate) fn clear(live: &mut Vec<bool>)
    ensures { live.new.items ≡ replicate (length live.old.items) false }
{
    let numbers = live.len();
    live.clear();
    extend(live, numbers);
}
