//! One run of a list of runs changes.
ghost use Rattle.std.specs.Prelude.{◌≡◌, ◌+◌, ◌++◌, ◌<◌, ◌==◌, true, false, not};
ghost use Rattle.std.specs.Prelude.{[], ◌∷◌, IfNone, IfSome, length, map, nat_lt};
ghost use Rattle.std.specs.Prelude.{cond, slice_index_or, slice_set, vec_len, vec_capacity};
ghost use Rattle.std.specs.List.{list_any};
ghost use Rattle.executor_model.specs.World.{Left, no_run};
ghost use Rattle.executor_core.specs.Runs.{as_run, as_stage};
ghost use Rattle.executor_core.specs.Ticks.{as_ticker, is_asleep};

use crate::runs::run::{Run, Stage};
use crate::ticks::Ticker;
use std::mem;

/// The drop of some of these was not begun.
pub fn any_there(runs: &[Run]) -> bool
    ensures { result ≡ list_any (λ x. not x.dropped) runs.now }
{
    runs.iter().any(|run| !run.dropped)
}

/// It has come so far.
pub fn set_stage(runs: &mut Vec<Run>, at: usize, stage: Stage)
    requires { at < vec_len runs.old }
    ensures runs { map as_run runs.new.items ≡ slice_set (map as_run runs.old.items) at
        (record (slice_index_or (map as_run runs.old.items) at no_run) { stage = as_stage stage }) }
    ensures own { map (λ x. x.own) runs.new.items ≡ map (λ x. x.own) runs.old.items }
    ensures len { vec_len runs.new ≡ vec_len runs.old }
    ensures room { vec_capacity runs.new ≡ vec_capacity runs.old }
{
    let run = &mut runs[at];
    run.stage = stage;
}

/// Its drop begins.
pub fn begin_drop(runs: &mut Vec<Run>, at: usize)
    requires { at < vec_len runs.old }
    ensures runs { map as_run runs.new.items ≡ slice_set (map as_run runs.old.items) at
        (record (slice_index_or (map as_run runs.old.items) at no_run) { dropped = true }) }
    ensures own { map (λ x. x.own) runs.new.items ≡ map (λ x. x.own) runs.old.items }
    ensures len { vec_len runs.new ≡ vec_len runs.old }
    ensures room { vec_capacity runs.new ≡ vec_capacity runs.old }
{
    let run = &mut runs[at];
    run.dropped = true;
}

/// It counts one more task.
pub fn count(runs: &mut Vec<Run>, at: usize) -> bool
    requires { at < vec_len runs.old }
    ensures full { result ≡ ((slice_index_or (map as_run runs.old.items) at no_run).counted + 1 == 64) }
    ensures runs { map as_run runs.new.items ≡ slice_set (map as_run runs.old.items) at
        (record (slice_index_or (map as_run runs.old.items) at no_run) {
          counted = cond result 0 ((slice_index_or (map as_run runs.old.items) at no_run).counted + 1);
        }) }
    ensures own { map (λ x. x.own) runs.new.items ≡ map (λ x. x.own) runs.old.items }
    ensures len { vec_len runs.new ≡ vec_len runs.old }
    ensures room { vec_capacity runs.new ≡ vec_capacity runs.old }
{
    let run = &mut runs[at];
    run.counts.count()
}

/// It takes one more task.
pub fn take_one(runs: &mut Vec<Run>, at: usize) -> bool
    requires { at < vec_len runs.old }
    ensures full { result ≡ ((slice_index_or (map as_run runs.old.items) at no_run).taken + 1 == 200) }
    ensures runs { map as_run runs.new.items ≡ slice_set (map as_run runs.old.items) at
        (record (slice_index_or (map as_run runs.old.items) at no_run) {
          taken = cond result 0 ((slice_index_or (map as_run runs.old.items) at no_run).taken + 1);
        }) }
    ensures own { map (λ x. x.own) runs.new.items ≡ map (λ x. x.own) runs.old.items }
    ensures len { vec_len runs.new ≡ vec_len runs.old }
    ensures room { vec_capacity runs.new ≡ vec_capacity runs.old }
{
    let run = &mut runs[at];
    run.counts.take()
}

/// It is taken out of its place.
pub fn take_place(runs: &mut Vec<Run>, at: usize) -> Ticker
    requires { at < vec_len runs.old }
    ensures taken { as_ticker result ≡ (slice_index_or (map as_run runs.old.items) at no_run).place }
    ensures runs { map as_run runs.new.items ≡ slice_set (map as_run runs.old.items) at
        (record (slice_index_or (map as_run runs.old.items) at no_run) { place = Left }) }
    ensures own { map (λ x. x.own) runs.new.items ≡ map (λ x. x.own) runs.old.items }
    ensures len { vec_len runs.new ≡ vec_len runs.old }
    ensures room { vec_capacity runs.new ≡ vec_capacity runs.old }
{
    let run = &mut runs[at];
    mem::replace(&mut run.place, Ticker::Left)
}

/// It is put into its place.
pub fn put_place(runs: &mut Vec<Run>, at: usize, place: Ticker)
    requires within { at < vec_len runs.old }
    requires free { (slice_index_or (map as_run runs.old.items) at no_run).place ≡ Left }
    ensures runs { map as_run runs.new.items ≡ slice_set (map as_run runs.old.items) at
        (record (slice_index_or (map as_run runs.old.items) at no_run) { place = as_ticker place }) }
    ensures own { map (λ x. x.own) runs.new.items ≡ map (λ x. x.own) runs.old.items }
    ensures len { vec_len runs.new ≡ vec_len runs.old }
    ensures room { vec_capacity runs.new ≡ vec_capacity runs.old }
{
    let run = &mut runs[at];
    mem::replace(&mut run.place, place).let_go();
}

/// The first Runnable of its own queue is taken, where there is one.
pub fn take(runs: &mut Vec<Run>, at: usize) -> Option<u64>
    requires { at < vec_len runs.old }
    ensures none { IfNone result ((slice_index_or (map (λ x. x.own) runs.old.items) at [] ≡ [])
        × (map (λ x. x.own) runs.new.items ≡ map (λ x. x.own) runs.old.items)) }
    ensures some { IfSome result (λ f. slice_index_or (map (λ x. x.own) runs.old.items) at []
        ≡ f ∷ slice_index_or (map (λ x. x.own) runs.new.items) at []) }
    ensures own { map (λ x. x.own) runs.new.items ≡ slice_set (map (λ x. x.own) runs.old.items) at
        (slice_index_or (map (λ x. x.own) runs.new.items) at []) }
    ensures runs { map as_run runs.new.items ≡ map as_run runs.old.items }
    ensures len { vec_len runs.new ≡ vec_len runs.old }
    ensures room { vec_capacity runs.new ≡ vec_capacity runs.old }
{
    let run = &mut runs[at];
    run.own.take()
}

/// One is appended to its own queue, where a place is free.
pub fn append(runs: &mut Vec<Run>, at: usize, f: u64) -> bool
    requires { at < vec_len runs.old }
    ensures free { result ≡ nat_lt (length (slice_index_or (map (λ x. x.own) runs.old.items) at [])) 512 }
    ensures kept { result ≡ true → map (λ x. x.own) runs.new.items
        ≡ slice_set (map (λ x. x.own) runs.old.items) at
        (slice_index_or (map (λ x. x.own) runs.old.items) at [] ++ f ∷ []) }
    ensures same { result ≡ false → map (λ x. x.own) runs.new.items ≡ map (λ x. x.own) runs.old.items }
    ensures runs { map as_run runs.new.items ≡ map as_run runs.old.items }
    ensures len { vec_len runs.new ≡ vec_len runs.old }
    ensures room { vec_capacity runs.new ≡ vec_capacity runs.old }
{
    let run = &mut runs[at];
    run.own.append(f)
}
