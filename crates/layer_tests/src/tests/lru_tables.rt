//! Tests of `lru_table` for everything that its contracts don't cover: calls that have to succeed, and that a failed
//! allocation is reported by the call that made it. They pass whichever allocation fails.

use lru_table::{Lookup, LruTable, Slot};
use std::alloc::Global;
use std::process::Abort;

/// Returns an empty table. If an allocation fails, it tries a second time.
fn table(rt: &(impl Abort + Print), alloc: Global) -> LruTable<u32, u32> {
    match LruTable::new(alloc) {
        Ok(table) => table,
        Err(_) => {
            println!(rt; "refused: new").expect(rt, "no output");
            LruTable::new(alloc).expect(rt, "refused twice")
        }
    }
}

/// Adds a key with a hash to a table, with itself as its value, and returns its slot. If an allocation fails, it
/// asserts that nothing was added, and tries a second time.
fn add(rt: &(impl Abort + Print), table: &mut LruTable<u32, u32>, hash: u64, key: u32) -> Slot {
    let len = table.len();
    for refused in [false, true] {
        match table.find(hash, &key) {
            Lookup::Present(slot) => return slot,
            Lookup::Vacant(slot) => {
                if table.insert(slot, key, key).is_ok() {
                    return slot;
                }
            }
        }
        assert!(rt; !refused, "refused twice");
        println!(rt; "refused: insert").expect(rt, "no output");
        assert!(rt; table.len() == len);
    }
    Slot {
        hash,
        number: u64::MAX,
    }
}

/// Tests three keys with equal hashes and one with another hash.
#[test]
fn keys_that_collide(rt: HostRuntime) {
    let mut table = table(&rt, rt.alloc());
    for (hash, key, number) in [(7, 1, 0), (7, 2, 1), (7, 3, 2), (8, 1, 0)] {
        assert!(rt; add(&rt, &mut table, hash, key) == Slot { hash, number });
    }
    let second = Slot { hash: 7, number: 1 };
    assert!(rt; table.find(7, &2) == Lookup::Present(second));
    assert!(rt; table.find_value(7, &2) == (Lookup::Present(second), Some(&2)));
    assert!(rt; table.find(8, &2) == Lookup::Vacant(Slot { hash: 8, number: 1 }));
    if let Some(value) = table.get_mut(second) {
        *value = 20;
    }
    assert!(rt; table.get(second) == Some((&2, &20)));
    assert!(rt; table.remove(second) == Some((2, 20)));
    assert!(rt; table.find(7, &3) == Lookup::Present(Slot { hash: 7, number: 2 }));
    assert!(rt; add(&rt, &mut table, 7, 4) == second);
    table.touch(Slot { hash: 7, number: 0 });
    for expected in [3, 1, 4, 1] {
        assert!(rt; table.pop_oldest() == Some((expected, expected)));
    }
    assert!(rt; table.is_empty());
}

/// Tests 200 keys, so that the table has to grow, and a walk of its entries.
#[test]
fn many_keys(rt: HostRuntime) {
    let mut table = table(&rt, rt.alloc());
    for key in 0..200u32 {
        assert!(rt; add(&rt, &mut table, u64::from(key) << 32, key).number == 0);
    }
    for key in 0..200u32 {
        let slot = Slot {
            hash: u64::from(key) << 32,
            number: 0,
        };
        assert!(rt; table.oldest() == Some(slot));
        table.touch(slot);
    }
    assert!(rt; table.len() == 200);
    assert!(rt; table.oldest() == Some(Slot { hash: 0, number: 0 }));
    table.clear();
    assert!(rt; table.pop_oldest() == None);
}
