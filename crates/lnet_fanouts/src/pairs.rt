//! Pairs of a parent and a slot, and their places.

ghost use Rattle.std.specs.Prelude.{◌≡◌, map, option_map, Some, IfSome};
ghost use Rattle.lnet_model.specs.Answers.{IsListed, next_in};
ghost use Rattle.lnet_chains.specs.Lists.{list_of};
ghost use Rattle.lnet_store.specs.Cursors.{slot_at};

use crate::linking::SLOTS;
use lnet_gates::Node;
use lnet_pools::Pool;

/// The pair of the place. Constant time.
pub(crate) fn pair_of(place: u32) -> (Node, u8)
    ensures { (result.0.0, result.1) ≡ slot_at place }
{
    (Node(place / SLOTS), (place % SLOTS) as u8)
}

/// The place of the pair after `last` in the list of the node, or its first place where `last` is `None`; `None` where there is
/// none. Constant time.
pub(crate) fn next_place(pool: &Pool, n: Node, last: Option<(Node, u8)>) -> Option<u32>
    requires { IfSome last (λ p. IsListed (Some (map slot_at (list_of pool.now n.0))) (p.0.0, p.1)) }
    ensures { option_map slot_at result ≡ next_in (Some (map slot_at (list_of pool.now n.0))) (option_map (λ p. (p.0.0, p.1)) last) }
{
    let _places = pool.places();
    match last {
        Some((parent, slot)) => pool.next(SLOTS * parent.0 + slot as u32),
        None => pool.first(n.0),
    }
}
