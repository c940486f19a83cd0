//! What becomes of a future: its answer is detached or dropped, it is refused, or its pool goes.
use crate::counted::{Counted, Counts};
use async_task::Realm;
use pool::PoolOf;
use std::io;
use waiting::yield_now;

#[test]
fn it_runs_on_where_its_answer_is_detached(rt: HostRuntime) -> io::Result<()> {
    let (alloc, realm) = (rt.alloc(), Realm::leak(rt, rt.alloc())?);
    let pool = PoolOf::<Counted, u64, _>::new(rt, alloc, realm, 1)?;
    let counts = Counts::leak(alloc)?;
    let answer = pool.spawn(Counted { number: 7, counts })?;
    drop(answer.into_task().detach());
    assert!(rt; counts.are(0, 0));
    pool.run(yield_now())?;
    assert!(rt; counts.are(1, 1));
    Ok(())
}

#[test]
fn it_is_dropped_where_its_answer_is(rt: HostRuntime) -> io::Result<()> {
    let (alloc, realm) = (rt.alloc(), Realm::leak(rt, rt.alloc())?);
    let pool = PoolOf::<Counted, u64, _>::new(rt, alloc, realm, 1)?;
    let counts = Counts::leak(alloc)?;
    drop(pool.spawn(Counted { number: 7, counts })?);
    pool.run(yield_now())?;
    assert!(rt; counts.are(0, 1));
    Ok(())
}

#[test]
fn it_comes_back_beyond_the_limit(rt: HostRuntime) -> io::Result<()> {
    let (alloc, realm) = (rt.alloc(), Realm::leak(rt, rt.alloc())?);
    let pool = PoolOf::<Counted, u64, _>::new(rt, alloc, realm, 1)?;
    let counts = Counts::leak(alloc)?;
    let first = pool.spawn(Counted { number: 7, counts })?;
    let Err(refused) = pool.spawn(Counted { number: 8, counts }) else {
        panic!(rt; "accepted beyond the limit");
    };
    let future = refused.into_inner().into_inner();
    assert!(rt; (future.number == 8) & counts.are(0, 0));
    assert!(rt; pool.run(first)? == Ok(7));
    assert!(rt; counts.are(1, 1));
    Ok(())
}

#[test]
fn it_goes_with_its_pool(rt: HostRuntime) -> io::Result<()> {
    let (alloc, realm) = (rt.alloc(), Realm::leak(rt, rt.alloc())?);
    let pool = PoolOf::<Counted, u64, _>::new(rt, alloc, realm, 1)?;
    let counts = Counts::leak(alloc)?;
    let left = pool.spawn(Counted { number: 7, counts })?;
    drop(pool);
    assert!(rt; counts.are(0, 1));
    drop(left);
    Ok(())
}
