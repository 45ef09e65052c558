//! A set of numbers, over more than one word of bits.

use lnet_numbers::NumberSet;
use std::test::Fail;

/// Removes a number, where it is a member. Whether it was.
fn take(set: &mut NumberSet, n: u32) -> bool {
    let is_member = set.has(n);
    if is_member && n < set.room() {
        set.remove(n);
    }
    is_member
}

/// Inserts a number, where there is room for it. Whether there was.
fn put(set: &mut NumberSet, n: u32) -> bool {
    let can = n < set.room();
    if can {
        set.insert(n);
    }
    can
}

/// Removes the least member, again and again. The last one that was removed.
fn take_least(set: &mut NumberSet, times: u32) -> Option<u32> {
    let mut last = None;
    for _ in 0..times {
        last = set.least();
        if let Some(n) = last {
            take(set, n);
        }
    }
    last
}

#[test]
fn least_members(rt: HostRuntime) -> Result<(), Fail> {
    let mut set = NumberSet::new(rt.alloc());
    assert_eq!(rt; set.least(), None);
    set.grow(100, true)?;
    assert_eq!(rt; (set.room(), set.least()), (100, Some(0)));
    assert_eq!(rt; take_least(&mut set, 70), Some(69));
    assert!(rt; put(&mut set, 3));
    assert!(rt; !put(&mut set, 100));
    assert!(rt; !take(&mut set, 69));
    assert!(rt; take(&mut set, 71));
    assert_eq!(rt; take_least(&mut set, 2), Some(70));
    assert_eq!(rt; set.least(), Some(72));
    assert_eq!(rt; take_least(&mut set, 29), None);
    if set.room() <= 200 {
        set.grow(200, false)?;
    }
    assert_eq!(rt; (set.room(), set.least()), (200, None));
    assert!(rt; put(&mut set, 170));
    assert!(rt; put(&mut set, 170));
    assert_eq!(rt; set.least(), Some(170));
    Ok(())
}
