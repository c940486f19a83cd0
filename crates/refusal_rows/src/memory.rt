//! Memory that none of the calls asks for.
use crate::parts::Bell;
use crate::report::{Call, Report};
use std::alloc::Global;

/// Memory of the program's own.
pub fn own<T: Default + Drop>(alloc: Global, report: &mut Report) -> Option<Box<T>> {
    for _ in 0..2 {
        match Box::new(alloc, T::default()) {
            Ok(memory) => return Some(memory),
            Err(_) => report.is_refused(Call::Own),
        }
    }
    None
}

/// A waker from outside.
pub fn bell(alloc: Global, report: &mut Report) -> Option<Bell> {
    match own::<u64>(alloc, report) {
        Some(memory) => Some(Bell { alloc, memory }),
        None => None,
    }
}
