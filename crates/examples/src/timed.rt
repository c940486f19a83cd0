//! A message or a clock: a thread receives a number, unless its time is up before.
use blocking::{ThreadWaker, block_on_beside};
use combinators::recv_timeout;
use std::io;
use std::time::Duration;
use timer::Timer;
use waiting::channel;

#[test]
fn a_message_comes_in_time(rt: HostRuntime) -> io::Result<()> {
    let alloc = rt.alloc();
    let timer = Timer::<ThreadWaker, _>::new(rt, alloc, 1)?;
    let (sender, receiver) = channel::bounded::<u64, ThreadWaker, ThreadWaker, _>(rt, alloc, 4)?;
    sender.try_send(7)?;
    let timed = recv_timeout(receiver, timer.sleep(Duration::from_secs(60))?);
    let came = block_on_beside::<ThreadWaker, _, _, _>(&rt, alloc, &timer, timed);
    assert!(rt; matches!(came, Ok(Ok(7))));
    Ok(())
}
