use crate::adders::{Counter, add_in_two, add_while_watched, work_at_sum};
use crate::shelf::{Answer, Op, Shelf};
use crate::sum::{Addend, Sum};
use crate::workers::{Putting, Source, work_at_shelf};
use fixed_num::OutOfMemory;
use std::alloc::Global;
use std::test::Fail;
use turnstile::Turnstile;

/// The numbers from one on, up to another.
#[derive(Drop)]
struct Upwards {
    next: u64,
    end: u64,
}

impl Source for Upwards {
    fn next(&mut self) -> Option<u64> {
        if self.next >= self.end {
            return None;
        }
        self.next += 1;
        Some(self.next - 1)
    }
}

#[test]
fn two_threads(rt: HostRuntime) {
    let Some((glanced, sum)) = add_in_two(&rt, rt.alloc(), 50) else {
        assert!(rt; false, "memory is short");
        return;
    };
    assert!(rt; glanced <= 150);
    assert_eq!(rt; sum, 150);
}

#[test]
fn by_hand(rt: HostRuntime) {
    let Ok((stile, mut first)) = Turnstile::new(rt.alloc(), Sum { total: 0 }, 16) else {
        assert!(rt; false, "memory is short");
        return;
    };
    assert_eq!(rt; stile.call(&rt, &mut first, Addend::Number(5)), (5, 1));
    let mut other = stile.split(&mut first);
    assert_eq!(rt; stile.call(&rt, &mut other, Addend::Number(7)), (12, 2));
    assert_eq!(rt; stile.glance(&mut first, 0), 12);
    assert_eq!(rt; stile.glance(&mut other, 15), 0);
    stile.join(&mut first, other);
    assert_eq!(rt; stile.call(&rt, &mut first, Addend::Number(1)), (13, 3));
    assert_eq!(rt; stile.close(first).total, 13);
}

#[test]
fn no_dials(rt: HostRuntime) {
    let Ok((stile, mut first)) = Turnstile::new(rt.alloc(), Sum { total: 3 }, 0) else {
        assert!(rt; false, "memory is short");
        return;
    };
    assert_eq!(rt;
        stile.call(&rt, &mut first, Addend::Number(u64::MAX)),
        (u64::MAX, 1)
    );
    assert_eq!(rt; stile.close(first).total, u64::MAX);
}

#[test]
fn refused_memory(rt: HostRuntime) {
    match Turnstile::new(rt.alloc(), Sum { total: 7 }, 0) {
        Ok((stile, first)) => assert_eq!(rt; stile.close(first).total, 7),
        Err((sum, OutOfMemory)) => assert_eq!(rt; sum.total, 7),
    }
}

#[test]
fn order(rt: HostRuntime) -> Result<(), Fail> {
    let alloc: Global = rt.alloc();
    let mut works = Vec::new(alloc);
    for _ in 0..4 {
        works.push(Counter {
            times: 1_000,
            numbers: Vec::new(alloc),
        })?;
    }
    assert_eq!(rt; works.len(), 4);
    let (sum, works) = work_at_sum(&rt, alloc, 1, works)?;
    assert_eq!(rt; sum.total, 4_000);
    let mut all = Vec::new(alloc);
    for work in &works {
        assert!(rt; work.numbers.windows(2).all(|pair| pair[0] < pair[1]));
        all.extend_from_slice(work.numbers.as_slice())?;
    }
    all.sort()?;
    assert_eq!(rt; all.len(), 4_000);
    for (number, at) in all.iter().zip(1u64..) {
        assert_eq!(rt; *number, at);
    }
    Ok(())
}

#[test]
fn glances(rt: HostRuntime) {
    let Some((last, sum)) = add_while_watched(&rt, rt.alloc(), 10_000) else {
        assert!(rt; false, "memory is short");
        return;
    };
    assert_eq!(rt; sum, 10_000);
    assert!(rt; last.is_some_and(|last| last <= sum), "{last:?}");
}

#[test]
fn jobs(rt: HostRuntime) -> Result<(), Fail> {
    let alloc: Global = rt.alloc();
    let mut works = Vec::new(alloc);
    for k in 0u64..4 {
        works.push(Putting(Upwards {
            next: 100 * k,
            end: 100 * k + 100,
        }))?;
    }
    assert_eq!(rt; works.len(), 4);
    let (shelf, _) = work_at_shelf(&rt, alloc, works)?;
    let mut items = shelf.into_items();
    items.sort()?;
    assert_eq!(rt; items.len(), 400);
    for (item, n) in items.iter().zip(0u64..) {
        assert_eq!(rt; *item, n);
    }
    Ok(())
}

#[test]
fn taken_back(rt: HostRuntime) {
    let alloc: Global = rt.alloc();
    let Ok((stile, mut first)) = Turnstile::new(alloc, Shelf::new(alloc), 1) else {
        assert!(rt; false, "memory is short");
        return;
    };
    assert!(rt;
        matches!(
            stile.call(&rt, &mut first, Op::Put(7)),
            (Answer::Put(Ok(())), 1)
        )
    );
    assert!(rt;
        matches!(
            stile.call(&rt, &mut first, Op::Take),
            (Answer::Take(Some(7)), 2)
        )
    );
    assert!(rt;
        matches!(
            stile.call(&rt, &mut first, Op::Take),
            (Answer::Take(None), 3)
        )
    );
    assert_eq!(rt; stile.glance(&mut first, 0), 1);
}
