//! What both ends of a channel see, and whether a oneshot's receiver is there.
use async_task::Nobody;
use std::alloc::Global;
use std::io;
use std::sync::Wait;
use waiting::{channel, oneshot};

/// How many places the channel has.
const PLACES: usize = 2;

/// What is done with a channel of two places.
#[derive(Clone, Copy)]
enum Act {
    Send,
    Receive,
    Close,
}

/// What is done, and then how many messages both ends see, and whether the channel is closed.
const ROWS: [(&[Act], usize, bool); 6] = [
    (&[], 0, false),
    (&[Act::Send], 1, false),
    (&[Act::Send, Act::Send], 2, false),
    (&[Act::Send, Act::Receive], 0, false),
    (&[Act::Send, Act::Close], 1, true),
    (&[Act::Close], 0, true),
];

fn is_seen<R: Wait + Copy + Drop>(
    rt: R,
    alloc: Global,
    acts: &[Act],
    len: usize,
    is_closed: bool,
) -> io::Result<bool> {
    let (sender, receiver) = channel::bounded::<u64, Nobody, Nobody, R>(rt, alloc, PLACES)?;
    for act in acts {
        match act {
            Act::Send => {
                let _ = sender.try_send(7);
            }
            Act::Receive => {
                let _ = receiver.try_recv();
            }
            Act::Close => {
                sender.close();
            }
        }
    }
    let lens = (sender.len() == len) & (receiver.len() == len);
    let empty = (sender.is_empty() == (len == 0)) & (receiver.is_empty() == (len == 0));
    let full = (sender.is_full() == (len == PLACES)) & (receiver.is_full() == (len == PLACES));
    let closed = (sender.is_closed() == is_closed) & (receiver.is_closed() == is_closed);
    let places = (sender.capacity() == Some(PLACES)) & (receiver.capacity() == Some(PLACES));
    Ok(lens & empty & full & closed & places)
}

#[test]
fn both_ends_see_the_same(rt: HostRuntime) -> io::Result<()> {
    for (acts, len, is_closed) in ROWS {
        assert!(rt; is_seen(rt, rt.alloc(), acts, len, is_closed)?);
    }
    Ok(())
}

#[test]
fn a_sender_sees_that_its_receiver_went(rt: HostRuntime) -> io::Result<()> {
    let (sender, receiver) = oneshot::channel::<u64, Nobody, _>(rt, rt.alloc())?;
    assert!(rt; !sender.is_canceled());
    drop(receiver);
    assert!(rt; sender.is_canceled());
    Ok(())
}
