//! Three parties that call in turn, on one thread: in the order that digits say.

/// One of three parties.
#[derive(Clone, Copy, PartialEq, Eq)]
pub enum Who {
    One,
    Two,
    Three,
}

/// Where parties call, beside a model that says what each call has to answer.
pub trait Table {
    type Act: Copy;

    /// A call of one party. Whether all was as the model says.
    fn plays(&mut self, who: Who, act: Self::Act) -> bool;
}

/// What each of three parties does.
#[derive(Clone, Copy)]
pub struct Parties<'a, A> {
    pub one: &'a [A],
    pub two: &'a [A],
    pub three: &'a [A],
}

/// Turns that an order says. The parties take the later ones in turn.
pub const ORDERED: u64 = 7;

/// How many orders there are.
pub const ORDERS: u64 = 2_187;

/// Turns in all, by which each party has done what it does.
const TURNS: u64 = 28;

impl<'a, A: Copy> Parties<'a, A> {
    /// The call of this number of one party.
    fn act(&self, who: Who, number: usize) -> Option<A> {
        let acts = match who {
            Who::One => self.one,
            Who::Two => self.two,
            Who::Three => self.three,
        };
        acts.get(number).copied()
    }
}

/// The next call of each party.
#[derive(Clone, Copy)]
struct Nexts {
    one: usize,
    two: usize,
    three: usize,
}

impl Nexts {
    /// The number of this party's next call, which is made now.
    fn take(&mut self, who: Who) -> usize {
        let next = match who {
            Who::One => &mut self.one,
            Who::Two => &mut self.two,
            Who::Three => &mut self.three,
        };
        let number = *next;
        *next = number.saturating_add(1);
        number
    }
}

fn party_of(digit: u64) -> Who {
    match digit % 3 {
        0 => Who::One,
        1 => Who::Two,
        _ => Who::Three,
    }
}

/// The parties' calls in the order of these digits, each of which says who is next. Whether all was as the model says.
pub fn plays<T: Table>(table: &mut T, parties: &Parties<'_, T::Act>, mut digits: u64) -> bool {
    let mut nexts = Nexts {
        one: 0,
        two: 0,
        three: 0,
    };
    let mut is_well = true;
    for turn in 0..TURNS {
        let who = party_of(if turn < ORDERED { digits } else { turn });
        digits /= 3;
        let number = nexts.take(who);
        if let Some(act) = parties.act(who, number) {
            is_well &= table.plays(who, act);
        }
    }
    is_well
}
