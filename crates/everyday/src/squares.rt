//! Blocking work on two threads, awaited by futures.
use async_task::Future;
use blocking::{ThreadWaker, block_on};
use offload::{Offload, Work};
use std::{io, thread};
use waiting::join;

/// Squares its number, and blocks its thread meanwhile.
#[derive(Drop)]
struct Square(u64);

impl Work for Square {
    type Output = u64;

    fn work(self) -> u64 {
        self.0.saturating_mul(self.0)
    }
}

#[test]
fn two_threads_work(rt: HostRuntime) -> io::Result<()> {
    let alloc = rt.alloc();
    let offload = Offload::<Square, ThreadWaker, _>::new(rt, alloc, 2)?;
    let both = join(offload.run(Square(3))?, offload.run(Square(4))?);
    let ask = || {
        let outputs = block_on::<ThreadWaker, _, _>(&rt, alloc, both);
        offload.close();
        matches!(outputs, Ok((Ok(9), Ok(16))))
    };
    let serve = || thread::map_indices(&rt, alloc, 2, &|_| offload.serve());
    let (is_right, _) = thread::join(&rt, ask, serve);
    assert!(rt; is_right);
    Ok(())
}
