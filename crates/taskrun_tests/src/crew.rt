//! Threads that work together, and the texts of their faults.
use std::alloc::Global;
use std::sync::atomic::AtomicUsize;
use std::sync::atomic::Ordering::SeqCst;
use std::test::Fail;
use workers::{Fault, run_workers};

/// Whether four came back, and each had seen all four.
fn all_came(ends: Vec<usize>) -> bool {
    let mut came = 0u64;
    for seen in ends {
        if seen != 4 {
            return false;
        }
        came = came.saturating_add(1);
    }
    came == 4
}

/// Each of four workers waits, a bounded time, until all four have come: so each has a thread of its own.
#[test]
fn each_worker_has_a_thread_of_its_own(rt: HostRuntime) -> Result<(), Fail> {
    let come = AtomicUsize::new(0);
    let work = |_: usize| {
        come.fetch_add(1, SeqCst);
        let mut seen = 0;
        for _ in 0..100_000_000u64 {
            seen = come.load(SeqCst);
            if seen == 4 {
                break;
            }
        }
        Ok(seen)
    };
    let Ok(ends) = run_workers(&rt, rt.alloc(), 4, &work) else {
        panic!(rt; "refused");
    };
    assert!(rt; all_came(ends));
    Ok(())
}

/// Whether this is its text.
fn is_told(alloc: Global, fault: Fault, want: &str) -> bool {
    match format!(in alloc; "{fault}") {
        Ok(text) => text.as_str() == want,
        Err(_) => false,
    }
}

/// Whether each of these faults has its text.
fn are_told(alloc: Global, rows: &[(Fault, &str)]) -> bool {
    for (fault, want) in rows {
        if !is_told(alloc, *fault, *want) {
            return false;
        }
    }
    true
}

#[test]
fn each_fault_has_its_text(rt: HostRuntime) {
    let rows = [
        (Fault::Full, "full: each place is taken"),
        (Fault::NoMemory, "out of memory"),
        (
            Fault::TaskClosed,
            "the task is closed: it was cancelled, or its output was given before",
        ),
        (
            Fault::Finished,
            "the run has ended: it gave its output before",
        ),
        (Fault::NoRandom, "no random number"),
        (Fault::Closed, "closed: nothing more is taken, or comes"),
        (Fault::Empty, "empty: nothing is there"),
        (Fault::Elapsed, "the time is up"),
        (Fault::NoClock, "the clock can't be read"),
    ];
    assert!(rt; are_told(rt.alloc(), &rows));
}
