//! The hash table of gates' keys, with keys that come and go.

use crate::stores::read;
use arrayvec::ArrayVec;
use lnet_gates::{Key, Node, Op};
use lnet_strash::Strash;
use std::test::Fail;

/// The key of an operation on the plain signals of nodes 1 and `second`.
fn key(op: Op, second: u32) -> Key {
    let mut fanins = ArrayVec::new();
    fanins.push(read(1, false));
    fanins.push(read(second, false));
    Key { op, fanins }
}

/// Lets a node stand under a key that has no node. Whether it could.
#[tactic(auto, using(lnet_strash::proofs::Entries::entry_free))]
fn put(table: &mut Strash, key: Key, n: u8, phase: bool) -> Result<bool, Fail> {
    table.reserve(n as u32 + 1)?;
    table.release(Node(n as u32));
    if table.find(&key).is_some() {
        return Ok(false);
    }
    table.insert(key, Node(n as u32), phase);
    Ok(true)
}

/// Removes a key that has a node. Whether it could.
fn take(table: &mut Strash, key: &Key) -> bool {
    let stands = table.find(key).is_some();
    if stands {
        table.remove(key);
    }
    stands
}

#[test]
fn keys_come_and_go(rt: HostRuntime) -> Result<(), Fail> {
    let mut table = Strash::new(rt.alloc())?;
    assert!(rt; !take(&mut table, &key(Op::And, 2)));
    assert!(rt; put(&mut table, key(Op::And, 2), 3, false)?);
    assert!(rt; put(&mut table, key(Op::And, 4), 4, true)?);
    assert!(rt; put(&mut table, key(Op::Lut(0x8), 2), 9, true)?);
    assert!(rt; !put(&mut table, key(Op::And, 2), 5, true)?);
    assert!(rt; take(&mut table, &key(Op::And, 4)));
    // The node that stood under the table's key may stand under another key.
    assert!(rt; put(&mut table, key(Op::Xor, 2), 9, true)?);
    let found = [
        table.find(&key(Op::And, 2)),
        table.find(&key(Op::And, 4)),
        table.find(&key(Op::Xor, 2)),
        table.find(&key(Op::Lut(0x8), 2)),
    ];
    assert_eq!(rt;
        found,
        [Some((Node(3), false)), None, Some((Node(9), true)), None]
    );
    Ok(())
}
