//! A store of gates, read and counted: what each call must answer was worked by hand.

ghost use Rattle.std.specs.Prelude.{◌≡◌, [], ◌∷◌, false};

use arrayvec::ArrayVec;
use lnet_gates::{Gate, Node, Op, Signal};
use lnet_store::Store;
use std::alloc::Global;
use std::test::Fail;

/// The signal that reads a node, complemented where asked.
pub(crate) fn read(node: u32, complement: bool) -> Signal {
    Signal {
        node: Node(node),
        complement,
    }
}

/// The And of two signals.
pub(crate) fn and(a: Signal, b: Signal) -> Gate
    ensures { result ≡ record { op = Op.And; phase = false; fanins = a ∷ b ∷ [] } }
{
    let mut fanins = ArrayVec::new();
    fanins.push(a);
    fanins.push(b);
    Gate {
        op: Op::And,
        phase: false,
        fanins,
    }
}

/// Adds the And of two live signals. Its number, 0 where it isn't added.
pub(crate) fn added(store: &mut Store, a: Signal, b: Signal) -> u32 {
    if store.is_live(a.node) && store.is_live(b.node) {
        return match store.add(and(a, b)) {
            Ok(n) => n.0,
            Err(_) => 0,
        };
    }
    0
}

/// Adds an output, and makes it read another node, where both are live.
fn turned(store: &mut Store, from: Signal, to: Signal) -> Result<u32, Fail> {
    if !store.is_live(from.node) || !store.is_live(to.node) || store.output_count() > 9 {
        return Err("no such node".into());
    }
    let k = store.add_output(from)?;
    if k >= store.output_count() || !store.is_live(to.node) {
        return Err("no such output".into());
    }
    store.set_output(k, to);
    Ok(k)
}

/// The store of two inputs, 1 and 2, of the gates 3 = 1 2, 4 = 3 !1 and 5 = 4 3, and of the outputs 5 and !4.
fn example(alloc: Global) -> Result<Store, Fail> {
    let mut store = Store::new(alloc)?;
    store.reserve(5)?;
    store.add_input()?;
    store.add_input()?;
    added(&mut store, read(1, false), read(2, false));
    added(&mut store, read(3, false), read(1, true));
    added(&mut store, read(4, false), read(3, false));
    turned(&mut store, read(1, false), read(5, false))?;
    turned(&mut store, read(3, true), read(4, true))?;
    Ok(store)
}

#[test]
fn a_store_is_read(rt: HostRuntime) -> Result<(), Fail> {
    let mut store = example(rt.alloc())?;
    store.reserve(3)?;
    assert!(rt; store.spare() >= 3);
    assert_eq!(rt;
        [
            store.live_count(),
            store.numbers(),
            store.input_count(),
            store.output_count(),
        ],
        [6, 6, 2, 2]
    );
    assert_eq!(rt;
        [
            store.refs(Node(0)),
            store.refs(Node(1)),
            store.refs(Node(3)),
            store.refs(Node(5)),
            store.refs(Node(9)),
        ],
        [0, 2, 2, 1, 0]
    );
    assert_eq!(rt; [store.input(1), store.input(2)], [Some(Node(2)), None]);
    assert_eq!(rt;
        [store.output(1), store.output(2)],
        [Some(read(4, true)), None]
    );
    assert!(rt; store.is_input(Node(2)) && !store.is_input(Node(3)) && !store.is_live(Node(6)));
    assert!(rt;
        store.depends_on(read(5, true), Node(1)) && !store.depends_on(read(3, false), Node(4))
    );
    Ok(())
}

/// Ten times the parent, and the slot.
fn place(pair: Option<(Node, u8)>) -> u32 {
    match pair {
        Some((parent, slot)) => parent.0.wrapping_mul(10).wrapping_add(slot as u32),
        None => 0,
    }
}

/// The sum of the places of the node's parents, three at most, and how many reads were counted.
fn parents_of(store: &Store, n: u32) -> (u32, u64) {
    let (look, mut visits) = store.look();
    let mut parents = look.parents(Node(n));
    let first = place(parents.next(&mut visits));
    let second = place(parents.next(&mut visits));
    let third = place(parents.next(&mut visits));
    (
        first.wrapping_add(second).wrapping_add(third),
        visits.count(),
    )
}

#[test]
fn reads_are_counted(rt: HostRuntime) -> Result<(), Fail> {
    let mut store = example(rt.alloc())?;
    assert_eq!(rt; added(&mut store, read(5, false), read(5, true)), 6);
    assert_eq!(rt;
        [
            parents_of(&store, 3),
            parents_of(&store, 5),
            parents_of(&store, 6)
        ],
        [(91, 2), (121, 2), (0, 0)]
    );
    let (look, mut visits) = store.look();
    assert!(rt; look.live_count() == 7);
    match look.gate_of(Node(4), &mut visits) {
        Some(gate) => assert_eq!(rt;
            gate.fanins.as_slice(),
            [read(3, false), read(1, true)].as_slice()
        ),
        None => return Err("no gate".into()),
    }
    assert_eq!(rt; visits.count(), 1);
    Ok(())
}
