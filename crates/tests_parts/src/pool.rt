// A pool that is filled, refuses, is reset and filled again.

use std::test::Fail;
use xlt_pool::{Id, Mark, Node, Pool};

/// A node of its own for each number.
fn numbered(a: u32) -> Node {
    Node {
        op: 7,
        num: 0,
        a,
        b: 1,
        c: 2,
    }
}

// Cuts a pool that is as long as that.
fn cut(pool: &mut Pool, length: u32) {
    if length <= pool.mark().0 {
        pool.reset(Mark(length));
    }
}

#[test]
fn one_place(rt: HostRuntime) -> Result<(), Fail> {
    let mut pool = Pool::new(rt.alloc(), 1)?;
    let start = pool.mark().0;
    let first = pool.intern(numbered(5));
    let same = pool.intern(numbered(5));
    let refused = pool.intern(numbered(6));
    let filled = pool.mark().0;
    cut(&mut pool, start);
    let other = pool.intern(numbered(6));
    assert!(rt; [first, same, refused, other] == [Some(Id(0)), Some(Id(0)), None, Some(Id(0))]);
    assert!(rt; [start, filled] == [0, 1]);
    Ok(())
}

#[test]
fn no_place(rt: HostRuntime) -> Result<(), Fail> {
    let mut pool = Pool::new(rt.alloc(), 0)?;
    let first = pool.intern(numbered(0));
    let second = pool.intern(numbered(0));
    assert!(rt; [first, second] == [None, None] && pool.mark().0 == 0);
    Ok(())
}

/// Each field tells nodes apart.
#[test]
fn fields(rt: HostRuntime) -> Result<(), Fail> {
    let mut pool = Pool::new(rt.alloc(), 8)?;
    let node = numbered(5);
    let places = [
        pool.intern(node),
        pool.intern(Node { op: 8, ..node }),
        pool.intern(Node { num: 1, ..node }),
        pool.intern(Node { a: 6, ..node }),
        pool.intern(Node { b: 5, ..node }),
        pool.intern(Node { c: 5, ..node }),
        pool.intern(node),
    ];
    let wanted = [
        Some(Id(0)),
        Some(Id(1)),
        Some(Id(2)),
        Some(Id(3)),
        Some(Id(4)),
        Some(Id(5)),
        Some(Id(0)),
    ];
    assert!(rt; places == wanted && pool.mark().0 == 6);
    Ok(())
}

/// Whether so many nodes from a number on stand at the first places.
fn are_first(pool: &mut Pool, from: u32, count: u32) -> bool {
    for place in 0..count {
        let node = numbered(from.saturating_add(place));
        if pool.intern(node) != Some(Id(place)) {
            return false;
        }
    }
    true
}

/// 8,192 different nodes, then none; after a reset 8,192 others; and after one to the middle the first half is found.
#[test]
fn filled_twice(rt: HostRuntime) -> Result<(), Fail> {
    let mut pool = Pool::new(rt.alloc(), 8192)?;
    let filled = are_first(&mut pool, 0, 8192);
    let refused = pool.intern(numbered(8192));
    cut(&mut pool, 0);
    let again = are_first(&mut pool, 10_000, 8192);
    let refused_again = pool.intern(numbered(0));
    cut(&mut pool, 4096);
    let half = are_first(&mut pool, 10_000, 4096);
    let next = pool.intern(numbered(14_096));
    let other = pool.intern(numbered(0));
    assert!(rt; filled && again && half);
    assert!(rt;
        [refused, refused_again, next, other] == [None, None, Some(Id(4096)), Some(Id(4097))]
    );
    Ok(())
}
