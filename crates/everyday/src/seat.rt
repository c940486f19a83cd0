//! A seat that is booked twice under some order, which is found, printed and played again.
use async_task::{Future, Poll, Wake};
use orders::{Beside, fails_again, first_failure};
use std::alloc::Global;
use std::cell::Cell;
use std::collections::VecDeque;
use std::io;
use std::rc::Rc;

/// How many have booked the seat.
type Booked = Rc<Cell<u64>, Global>;

/// Sees at its first poll whether the seat is free, and books it at its second.
#[derive(Drop)]
struct Booking(Booked, bool);

impl<K: Wake> Future<K> for Booking {
    type Output = ();

    fn poll(&mut self, waker: &K) -> Poll<()> {
        if self.1 {
            self.0.set(self.0.get().saturating_add(1));
        } else if self.0.get() == 0 {
            self.1 = true;
            waker.wake_by_ref();
            return Poll::Pending;
        }
        Poll::Ready(())
    }
}

/// The seat makes no steps of its own.
#[derive(Drop)]
struct Seat(Booked);

impl Beside for Seat {
    fn may_step(&self) -> bool {
        false
    }

    fn step(&mut self) {}
}

fn make(alloc: Global) -> io::Result<(VecDeque<Booking>, Seat)> {
    let seat = Rc::new(alloc, Cell::new(0))?;
    let mut bookings = VecDeque::new(alloc);
    for _ in 0..2 {
        bookings.push_back(Booking(Rc::clone(&seat)?, false))?;
    }
    Ok((bookings, Seat(seat)))
}

#[test]
fn a_seat_is_booked_twice(rt: HostRuntime) -> io::Result<()> {
    let alloc = rt.alloc();
    let check = |seat: &Seat| seat.0.get() == 1;
    let Some(failure) = first_failure(alloc, 0..100, || make(alloc), check)? else {
        panic!(rt; "each order is right");
    };
    println!(rt; "{failure}")?;
    assert!(rt; fails_again(alloc, &failure, || make(alloc), check)?);
    Ok(())
}
