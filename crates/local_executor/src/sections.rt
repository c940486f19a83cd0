//! What is done under the lock: each section is one call of `Solo`. No code of a user runs here: what comes out is `Foreign`.
ghost use Rattle.std.specs.Prelude.{◌≡◌, IfSome, IfNone, OnSome, IfOk, OnOk, IfErr, is_none};
ghost use Rattle.task_moves.specs.declared.local_task.answers.Back.TheVariants.{Ready, Pending};
ghost use Rattle.solo.specs.declared.names.SoloWaker.TheVariants.{Task as OfTask};
ghost use Rattle.solo.specs.Solo as solo;
ghost use Rattle.solo.specs.Ticks as ticks;
ghost use Rattle.solo.specs.Closing as closing;
ghost use Rattle.solo.specs.Runs as runs;

use crate::foreign::Foreign;
use crate::names::Tasks;
use crate::out::{
    dropped_out, owed_out, polled_out, ran_out, taken_out, ticked_out, told_out, waker_in,
};
use executor_parts::{EntryPlace, Mark};
use solo::{
    Back, Dropped, Leaving, Lent, Missed, Owed, Polled, Ran, RunLeft, Runner, SoloWaker,
    SpawnError, Spawned, Taken, Task, Ticked, Ticker, Told,
};
use std::alloc::AllocError;

/// Enters the future at a place with this mark, and queues its task. A refusal changes nothing.
pub fn spawn<W>(
    tasks: &mut Tasks<W>,
    place: EntryPlace,
    mark: Mark,
) -> Result<Spawned<Foreign<W>>, SpawnError<EntryPlace>>
    ensures { solo.Spawns mark place tasks.old result tasks.new }
{
    match tasks.spawn(place, mark) {
        Ok(Spawned { task, told }) => Ok(Spawned {
            task,
            told: told_out(told),
        }),
        Err(refused) => Err(refused),
    }
}

/// Takes the task that a search finds out of its queue.
#[inline(always)]
pub fn take<W>(tasks: &mut Tasks<W>) -> Taken<EntryPlace, Foreign<W>>
    ensures tasks { tasks.new ≡ solo.taken tasks.old }
    ensures taken { result ≡ solo.take_answer tasks.old }
{
    taken_out(tasks.take())
}

/// A poll has ended.
#[inline(always)]
pub fn settle<W>(
    tasks: &mut Tasks<W>,
    lent: Lent,
    back: Back<EntryPlace, ()>,
) -> Owed<EntryPlace, (), Foreign<W>>
    ensures tasks { tasks.new ≡ solo.settled lent back tasks.old }
    ensures owed { result ≡ solo.settle_answer lent back tasks.old }
{
    owed_out(tasks.settle(lent, back))
}

/// A future was dropped.
pub fn finish<W>(tasks: &mut Tasks<W>, lent: Lent) -> Owed<EntryPlace, (), Foreign<W>>
    ensures tasks { tasks.new ≡ solo.finished lent tasks.old }
    ensures owed { result ≡ solo.finish_answer lent tasks.old }
{
    owed_out(tasks.finish(lent))
}

/// Takes its turn from a task that the queue has turned away.
pub fn retract<W>(tasks: &mut Tasks<W>, task: Task) -> Owed<EntryPlace, (), Foreign<W>>
    ensures tasks { tasks.new ≡ closing.retracted task tasks.old }
    ensures owed { result ≡ closing.retract_answer task tasks.old }
{
    owed_out(tasks.retract(task))
}

/// Wakes a task.
#[inline(always)]
pub fn wake<W>(tasks: &mut Tasks<W>, task: Task) -> Told<Foreign<W>>
    ensures tasks { tasks.new ≡ solo.woken task tasks.old }
    ensures told { result ≡ solo.wake_answer task tasks.old }
{
    told_out(tasks.wake(task))
}

/// Wakes a task by a waker of its own, which goes.
pub fn wake_and_release<W>(tasks: &mut Tasks<W>, task: Task) -> Told<Foreign<W>>
    ensures tasks { tasks.new ≡ solo.woken_and_released task tasks.old }
    ensures told { result ≡ solo.wake_and_release_answer task tasks.old }
{
    told_out(tasks.wake_and_release(task))
}

/// Counts one waker more.
pub fn hold<W>(tasks: &mut Tasks<W>, task: Task) -> bool
    ensures tasks { tasks.new ≡ solo.held task tasks.old }
    ensures few { result ≡ solo.may_hold task tasks.old }
{
    tasks.hold(task)
}

/// Counts one waker less.
#[inline(always)]
pub fn release<W>(tasks: &mut Tasks<W>, task: Task) -> Told<Foreign<W>>
    ensures tasks { tasks.new ≡ solo.released task tasks.old }
    ensures told { result ≡ solo.release_answer task tasks.old }
{
    told_out(tasks.release(task))
}

/// Closes the task of a handle.
pub fn cancel<W>(tasks: &mut Tasks<W>, task: Task) -> Owed<EntryPlace, (), Foreign<W>>
    ensures tasks { tasks.new ≡ solo.cancelled task tasks.old }
    ensures owed { result ≡ solo.cancel_answer task tasks.old }
{
    owed_out(tasks.cancel(task))
}

/// Gives a handle up.
pub fn detach<W>(tasks: &mut Tasks<W>, task: Task) -> Owed<EntryPlace, (), Foreign<W>>
    ensures tasks { tasks.new ≡ solo.detached task tasks.old }
    ensures owed { result ≡ solo.detach_answer task tasks.old }
{
    owed_out(tasks.detach(task))
}

/// Polls a handle where it needs to leave no waker; else nothing is done. The stand-in for its waker isn't counted.
pub fn answer<W>(tasks: &mut Tasks<W>, task: Task) -> Option<Polled<(), SoloWaker<Foreign<W>>>>
    ensures waits { is_none result ≡ solo.must_wait task tasks.old }
    ensures same { IfNone result (tasks.new ≡ tasks.old) }
    ensures tasks { OnSome result (tasks.new ≡ solo.polled task (OfTask task) tasks.old) }
    ensures answer { IfSome result (λ polled. polled ≡ solo.poll_answer task (OfTask task) tasks.old) }
{
    if tasks.must_wait(task) {
        return None;
    }
    Some(polled_out(tasks.poll(task, SoloWaker::Task(task))))
}

/// Polls a handle with a waker.
pub fn poll<W>(
    tasks: &mut Tasks<W>,
    task: Task,
    waker: SoloWaker<Foreign<W>>,
) -> Polled<(), SoloWaker<Foreign<W>>>
    ensures tasks { tasks.new ≡ solo.polled task waker tasks.old }
    ensures answer { result ≡ solo.poll_answer task waker tasks.old }
{
    polled_out(tasks.poll(task, waker_in(waker)))
}

/// Whether a handle's task is finished.
pub fn is_finished<W>(tasks: &Tasks<W>, task: Task) -> bool
    ensures { result ≡ solo.is_finished task tasks.now }
{
    tasks.is_finished(task)
}

/// Whether each future that was accepted is dropped.
pub fn is_empty<W>(tasks: &Tasks<W>) -> bool
    ensures { result ≡ solo.is_empty tasks.now }
{
    tasks.is_empty()
}

/// Begins the end.
pub fn close<W>(tasks: &mut Tasks<W>)
    ensures { tasks.new ≡ closing.closed tasks.old }
{
    tasks.close();
}

/// Does one more step of the end.
pub fn drain<W>(tasks: &mut Tasks<W>) -> Option<Owed<EntryPlace, (), Foreign<W>>>
    ensures tasks { tasks.new ≡ closing.drained tasks.old }
    ensures owed { result ≡ closing.drain_answer tasks.old }
{
    match tasks.drain() {
        Some(owed) => Some(owed_out(owed)),
        None => None,
    }
}

/// Makes a new tick.
pub fn tick<W>(tasks: &mut Tasks<W>) -> Result<Ticker, AllocError>
    ensures ok { OnOk result (tasks.new ≡ ticks.roomy tasks.old) }
    ensures err { IfErr result (λ _. tasks.new ≡ tasks.old) }
{
    tasks.tick()
}

/// Looks for a task for a tick, which comes back where there is none.
pub fn tick_search<W>(
    tasks: &mut Tasks<W>,
    ticker: Ticker,
) -> Result<Ticked<EntryPlace, Foreign<W>>, Ticker>
    ensures tasks { tasks.new ≡ ticks.searched ticker tasks.old }
    ensures ticked { result ≡ ticks.search_answer ticker tasks.old }
{
    match tasks.tick_search(ticker) {
        Ok(ticked) => Ok(ticked_out(ticked)),
        Err(ticker) => Err(ticker),
    }
}

/// A tick or run that has found no task falls asleep with a waker, unless a task is queued by now.
pub fn tick_sleep<W>(
    tasks: &mut Tasks<W>,
    ticker: Ticker,
    waker: SoloWaker<Foreign<W>>,
) -> Ticked<EntryPlace, Foreign<W>>
    ensures tasks { tasks.new ≡ ticks.slept ticker waker tasks.old }
    ensures ticked { result ≡ ticks.slept_answer ticker waker tasks.old }
{
    ticked_out(tasks.tick_sleep(ticker, waker_in(waker)))
}

/// A tick goes.
pub fn tick_leave<W>(tasks: &mut Tasks<W>, ticker: Ticker) -> Dropped<Foreign<W>>
    ensures tasks { tasks.new ≡ ticks.left ticker tasks.old }
    ensures dropped { result ≡ ticks.leave_answer ticker tasks.old }
{
    dropped_out(tasks.tick_leave(ticker))
}

/// Makes it a static executor.
pub fn leak<W>(tasks: &mut Tasks<W>)
    ensures { tasks.new ≡ closing.leaked tasks.old }
{
    tasks.leak();
}

/// Calls one more of the wakers that a leak has taken out.
pub fn leak_next<W>(tasks: &mut Tasks<W>) -> Option<Told<Foreign<W>>>
    ensures tasks { tasks.new ≡ closing.leak_woken tasks.old }
    ensures told { result ≡ closing.leak_answer tasks.old }
{
    match tasks.leak_next() {
        Some(told) => Some(told_out(told)),
        None => None,
    }
}

/// Makes a new run.
pub fn run<W>(tasks: &mut Tasks<W>) -> Result<(Runner, Ticker), AllocError>
    ensures ok { OnOk result (tasks.new ≡ runs.made tasks.old) }
    ensures runner { IfOk result (λ both. both ≡ (runs.new_runner tasks.old.runs.made, runs.awake)) }
    ensures err { IfErr result (λ _. tasks.new ≡ tasks.old) }
{
    tasks.run()
}

/// Begins the first poll of a run.
pub fn run_begin<W>(tasks: &mut Tasks<W>, runner: &Runner)
    ensures { tasks.new ≡ runs.begun runner.now tasks.old }
{
    tasks.run_begin(runner);
}

/// Looks for a task for a run, whose ticker comes back where there is none.
pub fn run_search<W>(
    tasks: &mut Tasks<W>,
    runner: &mut Runner,
    ticker: Ticker,
    start: u64,
) -> Result<Ran<EntryPlace, Foreign<W>>, Missed>
    ensures tasks { tasks.new ≡ runs.searched runner.old ticker start tasks.old }
    ensures runner { runner.new ≡ runs.runner_after runner.old start tasks.old }
    ensures ran { result ≡ runs.search_answer runner.old ticker start tasks.old }
{
    match tasks.run_search(runner, ticker, start) {
        Ok(ran) => Ok(ran_out(ran)),
        Err(missed) => Err(missed),
    }
}

/// Begins to end a run.
pub fn run_leave<W>(tasks: &mut Tasks<W>, runner: Runner, ticker: Ticker) -> Leaving
    ensures tasks { tasks.new ≡ runs.left runner tasks.old }
    ensures leaving { result ≡ runs.leave_answer runner ticker tasks.old }
{
    tasks.run_leave(runner, ticker)
}

/// Does one more step of a run's end.
pub fn run_drain<W>(tasks: &mut Tasks<W>, leaving: Leaving) -> RunLeft<Foreign<W>>
    ensures tasks { tasks.new ≡ runs.drained leaving tasks.old }
    ensures left { result ≡ runs.drain_answer leaving tasks.old }
{
    match tasks.run_drain(leaving) {
        RunLeft::Scheduled(rest, told) => RunLeft::Scheduled(rest, told_out(told)),
        RunLeft::Gone(dropped) => RunLeft::Gone(dropped_out(dropped)),
    }
}
