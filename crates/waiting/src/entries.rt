//! Entries under numbers that ascend: one entry that came to an empty list, and a map of the entries that came after it. So a list
//! with one waiter at a time makes no map.
ghost use Rattle.std.specs.Prelude.{◌≡◌, ◌++◌, ◌∷◌, [], ℕ, None, OnErr, OnOk, drop};
ghost use Rattle.waiting.specs.Ascending.{Ascends, before, HasPut, HasTaken};
ghost use Rattle.waiting.specs.Waiters.{first_waker};

use std::alloc::AllocError;
use std::collections::BTreeMap;
use std::mem;

/// The entry that came to an empty list.
pub type First<K> = Option<(u64, Option<K>)>;

/// The entries that came after it.
pub type Rest<K> = BTreeMap<u64, Option<K>>;

/// Appends an entry. An append that is refused for want of memory changes nothing.
pub fn append<K: Drop>(
    first: &mut First<K>,
    rest: &mut Rest<K>,
    number: u64,
) -> Result<(), AllocError>
    requires { Ascends 0 number (before first.old rest.old.entries) }
    ensures last { OnOk result (before first.new rest.new.entries ≡ before first.old rest.old.entries ++ (number, None) ∷ []) }
    ensures refused { OnErr result (before first.new rest.new.entries ≡ before first.old rest.old.entries) }
{
    if first.is_none() && rest.is_empty() {
        *first = Some((number, None));
        return Ok(());
    }
    append_to_rest(rest, number)
}

fn append_to_rest<K: Drop>(rest: &mut Rest<K>, number: u64) -> Result<(), AllocError>
    requires { Ascends 0 number rest.old.entries }
    ensures last { OnOk result (rest.new.entries ≡ rest.old.entries ++ (number, None) ∷ []) }
    ensures refused { OnErr result (rest.new.entries ≡ rest.old.entries) }
{
    match rest.insert(number, None) {
        Ok(_) => Ok(()),
        Err(_) => Err(AllocError),
    }
}

/// Takes the first entry out, and answers its waker.
pub fn pop<K>(first: &mut First<K>, rest: &mut Rest<K>) -> Option<Option<K>>
    ensures first { result ≡ first_waker (before first.old rest.old.entries) }
    ensures told { before first.new rest.new.entries ≡ drop 1 (before first.old rest.old.entries) }
{
    if let Some((_, waker)) = first.take() {
        return Some(waker);
    }
    match rest.pop_first() {
        Some((_, waker)) => Some(waker),
        None => None,
    }
}

/// Puts a waker in the place of the one before. Where the number is missing the waker comes back.
pub fn put<K>(
    first: &mut First<K>,
    rest: &mut Rest<K>,
    number: u64,
    waker: Option<K>,
) -> Result<Option<K>, Option<K>>
    requires { (next : ℕ) × Ascends 0 next (before first.old rest.old.entries) }
    ensures { HasPut number waker (before first.old rest.old.entries) (before first.new rest.new.entries) result }
{
    let Some(one) = first else {
        return put_in_rest(rest, number, waker);
    };
    if one.0 == number {
        return Ok(replace(one, waker));
    }
    put_in_rest(rest, number, waker)
}

fn replace<K>(one: &mut (u64, Option<K>), waker: Option<K>) -> Option<K>
    ensures was { result ≡ one.old.1 }
    ensures is { one.new ≡ (one.old.0, waker) }
{
    mem::replace(&mut one.1, waker)
}

fn put_in_rest<K>(rest: &mut Rest<K>, number: u64, waker: Option<K>) -> Result<Option<K>, Option<K>>
    requires { (next : ℕ) × Ascends 0 next rest.old.entries }
    ensures { HasPut number waker rest.old.entries rest.new.entries result }
{
    match rest.get_mut(&number) {
        Some(place) => Ok(mem::replace(place, waker)),
        None => Err(waker),
    }
}

/// Takes an entry out, where it is there.
pub fn take<K: Drop>(first: &mut First<K>, rest: &mut Rest<K>, number: u64) -> Option<Option<K>>
    requires { (next : ℕ) × Ascends 0 next (before first.old rest.old.entries) }
    ensures { HasTaken number (before first.old rest.old.entries) (before first.new rest.new.entries) result }
{
    let Some((own, waker)) = first.take() else {
        return take_from_rest(rest, number);
    };
    if own == number {
        return Some(waker);
    }
    *first = Some((own, waker));
    take_from_rest(rest, number)
}

fn take_from_rest<K>(rest: &mut Rest<K>, number: u64) -> Option<Option<K>>
    requires { (next : ℕ) × Ascends 0 next rest.old.entries }
    ensures { HasTaken number rest.old.entries rest.new.entries result }
{
    rest.remove(&number)
}
