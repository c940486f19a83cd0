//! What the last receiver leaves in a channel is dropped with it.
use crate::waits::bell::Bell;
use async_task::{Future, Nobody, Poll};
use std::alloc::Global;
use std::io;
use std::sync::atomic::AtomicU64;
use std::sync::atomic::Ordering::SeqCst;
use std::sync::{Arc, Wait};
use waiting::channel::{self, one_kind};
use waiting::oneshot;

/// A message whose drop is counted.
struct Counted {
    drops: Arc<AtomicU64>,
}

impl Drop for Counted {
    fn drop(self) {
        let Counted { drops } = self;
        drops.fetch_add(1, SeqCst);
    }
}

/// What is done with a channel of four places.
#[derive(Clone, Copy)]
enum Act {
    Send,
    Receive,
    Close,
    /// One of two receivers goes.
    First,
    /// The other goes.
    Last,
}

use Act::{Close, First, Last, Receive, Send};

/// A channel whose sender stays, with two receivers.
#[derive(Drop)]
struct Desk<R: Wait + Copy + Drop> {
    drops: Arc<AtomicU64>,
    sender: one_kind::Sender<Counted, Nobody, R>,
    one: Option<one_kind::Receiver<Counted, Nobody, R>>,
    two: Option<one_kind::Receiver<Counted, Nobody, R>>,
}

impl<R: Wait + Copy + Drop> Desk<R> {
    fn new(rt: R, alloc: Global) -> io::Result<Desk<R>> {
        let drops = Arc::new(alloc, AtomicU64::new(0))?;
        let (sender, one) = channel::bounded(rt, alloc, 4)?;
        let two = one.clone()?;
        Ok(Desk {
            drops,
            sender,
            one: Some(one),
            two: Some(two),
        })
    }

    fn act(&mut self, act: Act) {
        match act {
            Send => {
                if let Ok(drops) = Arc::try_clone(&self.drops) {
                    let _ = self.sender.try_send(Counted { drops });
                }
            }
            Receive => {
                if let Some(end) = &self.two {
                    let _ = end.try_recv();
                }
            }
            Close => {
                self.sender.close();
            }
            First => self.one = None,
            Last => self.two = None,
        }
    }
}

/// How many messages are dropped once all was done, while a sender is there.
fn dropped<R: Wait + Copy + Drop>(rt: R, alloc: Global, acts: &[Act]) -> io::Result<u64> {
    let mut desk = Desk::new(rt, alloc)?;
    for act in acts {
        desk.act(*act);
    }
    Ok(desk.drops.load(SeqCst))
}

const ROWS: [(&[Act], u64); 8] = [
    (&[Send, Send], 0),
    (&[Send, Send, First], 0),
    (&[Send, Send, First, Last], 2),
    (&[Send, Receive, Send, First, Last], 2),
    (&[Send, Close, First], 0),
    (&[Send, Close, First, Last], 1),
    (&[First, Last, Send], 1),
    (&[Send, Send, Send, Send, First, Last, Send], 5),
];

#[test]
fn the_last_receiver_drops_what_is_left(rt: HostRuntime) -> io::Result<()> {
    for (acts, drops) in ROWS {
        assert!(rt; dropped(rt, rt.alloc(), acts)? == drops);
    }
    Ok(())
}

/// Who asks by a message isn't left waiting.
#[test]
fn who_asked_a_dead_channel_is_answered(rt: HostRuntime) -> io::Result<()> {
    let bell = Bell::new(rt.alloc(), false)?;
    let (sender, receiver) = channel::bounded::<
        oneshot::Sender<u64, Bell, HostRuntime>,
        Nobody,
        Nobody,
        _,
    >(rt, rt.alloc(), 1)?;
    let (to, mut answer) = oneshot::channel::<u64, Bell, _>(rt, rt.alloc())?;
    assert!(rt; sender.try_send(to).is_ok());
    assert!(rt; matches!(answer.poll(&bell), Poll::Pending));
    drop(receiver);
    assert!(rt; bell.calls() == 1);
    assert!(rt; matches!(answer.poll(&bell), Poll::Ready(Err(oneshot::Canceled))));
    Ok(())
}
