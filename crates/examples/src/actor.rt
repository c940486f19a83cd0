//! An actor: an account with a mailbox of four places. Three clients, each on a thread, send it deposits: they wait with the waker
//! of a thread, and the account with that of its executor.
use async_executor::{ExWaker, Executor};
use async_task::{Future, Poll, Realm, Runtime};
use blocking::{ThreadWaker, block_on};
use std::{io, thread};
use waiting::channel::{self, Receiver};
use workers::complete;

type Waker<R> = ExWaker<u64, ThreadWaker, R>;

/// Its mailbox, and its balance.
#[derive(Drop)]
struct Account<R: Runtime>(R, Receiver<u64, ThreadWaker, Waker<R>, R>, u64);

impl<R: Runtime> Future<Waker<R>> for Account<R> {
    type Output = u64;

    fn poll(&mut self, waker: &Waker<R>) -> Poll<u64> {
        let rt = self.0;
        for _ in rt.forever() {
            match self.1.poll_recv(waker) {
                Poll::Pending => return Poll::Pending,
                Poll::Ready(Ok(amount)) => self.2 = self.2.saturating_add(amount),
                Poll::Ready(Err(_)) => return Poll::Ready(self.2),
            }
        }
        unreachable!()
    }
}

#[test]
fn three_clients_deposit(rt: HostRuntime) -> io::Result<()> {
    let (alloc, realm) = (rt.alloc(), Realm::leak(rt, rt.alloc())?);
    let bank = Executor::new(rt, alloc, realm, 1)?;
    let (mailbox, deposits) = channel::bounded(rt, alloc, 4)?;
    let account = bank.spawn(Account(rt, deposits, 0))?;
    let deposit = |_| {
        let Ok(mailbox) = mailbox.clone() else {
            return;
        };
        for amount in 1..=100 {
            let _ = block_on::<ThreadWaker, _, _>(&rt, alloc, mailbox.send(amount));
        }
    };
    let clients = || {
        let _ = thread::map_indices(&rt, alloc, 3, &deposit);
        mailbox.close()
    };
    let serve = || complete(&rt, alloc, &bank, account);
    let (balance, _) = thread::join(&rt, serve, clients);
    assert!(rt; matches!(balance, Ok(15_150)));
    Ok(())
}
