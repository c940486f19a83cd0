//! An actor with replies: an account with a mailbox, which answers each deposit with its balance.
use async_executor::{ExWaker, Executor};
use async_task::{Future, Poll, Realm, Runtime};
use blocking::{ThreadWaker, block_on};
use std::{io, thread};
use waiting::channel::{self, Receiver};
use waiting::oneshot;
use workers::complete;

type Waker<R> = ExWaker<u64, ThreadWaker, R>;

/// A deposit, and where the balance goes.
#[derive(Drop)]
struct Deposit<R: Runtime> {
    amount: u64,
    reply: oneshot::Sender<u64, ThreadWaker, R>,
}

/// Its mailbox, and its balance.
#[derive(Drop)]
struct Account<R: Runtime> {
    rt: R,
    deposits: Receiver<Deposit<R>, ThreadWaker, Waker<R>, R>,
    balance: u64,
}

impl<R: Runtime> Future<Waker<R>> for Account<R> {
    type Output = u64;

    fn poll(&mut self, waker: &Waker<R>) -> Poll<u64> {
        let rt = self.rt;
        for _ in rt.forever() {
            match self.deposits.poll_recv(waker) {
                Poll::Pending => return Poll::Pending,
                Poll::Ready(Ok(Deposit { amount, reply })) => {
                    self.balance = self.balance.saturating_add(amount);
                    let _ = reply.send(self.balance);
                }
                Poll::Ready(Err(_)) => return Poll::Ready(self.balance),
            }
        }
        unreachable!()
    }
}

#[test]
fn deposits_are_answered(rt: HostRuntime) -> io::Result<()> {
    let (alloc, realm) = (rt.alloc(), Realm::leak(rt, rt.alloc())?);
    let bank = Executor::new(rt, alloc, realm, 1)?;
    let (mailbox, deposits) = channel::bounded(rt, alloc, 4)?;
    let account = bank.spawn(Account {
        rt,
        deposits,
        balance: 0,
    })?;
    let client = || -> io::Result<u64> {
        let mut last = 0;
        for amount in 1..=10 {
            let (reply, balance) = oneshot::channel::<u64, ThreadWaker, _>(rt, alloc)?;
            mailbox.try_send(Deposit { amount, reply })?;
            let Ok(Ok(said)) = block_on::<ThreadWaker, _, _>(&rt, alloc, balance) else {
                break;
            };
            last = said;
        }
        mailbox.close();
        Ok(last)
    };
    let serve = || complete(&rt, alloc, &bank, account);
    let (balance, last) = thread::join(&rt, serve, client);
    assert!(rt; matches!((balance, last), (Ok(55), Ok(55))));
    Ok(())
}
