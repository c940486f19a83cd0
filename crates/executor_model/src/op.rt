//! What a party has still to do, as data.
use crate::call::Reply;
use executor_parts::Mark;
use task_moves::moves::Move;

/// A waker that a poll of a handle or of a tick was given.
#[derive(Clone, Copy, Debug, PartialEq, Eq)]
pub enum Waker {
    /// A waker of the task of this future.
    Task(u64),
    /// A waker from outside of the executor, with this number.
    Outside(u64),
}

/// What a task keeps of the last poll of its handle: the waker, and the poll by the place of its
/// `HandlePolled` in the trace.
#[derive(Clone, Copy, Debug, PartialEq, Eq)]
pub struct Awaiter {
    pub waker: Waker,
    pub poll: u64,
}

/// What a poll is of that was given a waker.
#[derive(Clone, Copy, Debug, PartialEq, Eq)]
pub enum Polled {
    /// The handle of this future.
    Handle(u64),
    /// The tick with this number.
    Tick(u64),
    /// The run with this number.
    Run(u64),
}

/// Who falls asleep among the sleepers.
#[derive(Clone, Copy, Debug, PartialEq, Eq)]
pub enum TickOrRun {
    /// The tick with this number.
    Tick(u64),
    /// The run with this number.
    Run(u64),
}

/// What the list of sleepers keeps of a tick or run: the waker that it fell asleep with, who it is, and the poll by
/// the place of its `TickPolled` or `RunPolled` in the trace.
#[derive(Clone, Copy, Debug, PartialEq, Eq)]
pub struct Sleeping {
    pub waker: Waker,
    pub who: TickOrRun,
    pub poll: u64,
}

/// A poll of a run: the run, the waker that it was given, and the place of its `RunPolled` in the trace.
#[derive(Clone, Copy, Debug, PartialEq, Eq)]
pub struct RunPoll {
    pub run: u64,
    pub waker: Waker,
    pub poll: u64,
}

/// What a call uses until it has ended, and another call may not use meanwhile.
#[derive(Clone, Copy, Debug)]
pub enum Hold {
    Nothing,
    /// The executor, which can't be dropped.
    Executor,
    /// The executor, and the handle of the future that it took in.
    Spawned(u64),
    /// The handle of this future.
    Handle(u64),
    /// The kept waker with this number.
    Waker(u64),
    /// The executor, and the tick with this number.
    Tick(u64),
    /// The executor, and the run with this number.
    Run(u64),
    /// The executor, which is leaked: no call on it begins meanwhile.
    Leaking,
}

/// What a party does with the table.
#[derive(Clone, Copy, Debug)]
pub enum TableOp {
    /// It takes a new future of this mark in, and a waker of it.
    Enter(Mark),
    /// It is asked whether it is empty.
    LookAtTable,
    /// The future is taken out, to be polled.
    TakeToPoll(u64),
    /// The future is put back.
    PutBack(u64),
    /// The future is taken out, to be dropped.
    TakeToDrop(u64),
    /// The future's entry is taken out.
    LeaveTable(u64),
}

/// One of the two looks of a search at the executor's queues.
#[derive(Clone, Copy, Debug, PartialEq, Eq)]
pub enum Look {
    /// At the queue that the turn names. Where nothing is there, the other one is looked at.
    First(Mark),
    /// At the other one.
    Second(Mark),
}

/// What a party does with the executor's queues.
#[derive(Clone, Copy, Debug)]
pub enum QueueOp {
    /// A turn is taken, which names the queue that is looked at first.
    TakeTurn,
    /// The first Runnable is taken.
    Take(Look),
    /// A Runnable of this future is appended to the queue of its mark.
    Append(u64),
}

/// User code, and what leads to it.
#[derive(Clone, Copy, Debug)]
pub enum UserOp {
    /// The poll of the future.
    Poll(u64),
    /// The drop of the future begins.
    BeginDrop(u64),
    /// The drop of the future.
    Drop(u64),
    /// The drop of the future's output begins.
    BeginDropOutput(u64),
    /// The drop of the future's output.
    DropOutput(u64),
    /// The call of an outside waker.
    CallOutside(u64),
    /// The poll of a run's own future.
    PollOwn(RunPoll),
    /// The drop of the own future of this run.
    DropOwn(u64),
}

/// What a party does with a waker, a move of its task apart.
#[derive(Clone, Copy, Debug)]
pub enum WakerOp {
    /// A copy of a waker of this future is asked for, and kept.
    CopyWaker(u64, Hold),
    /// The awaiter that was taken out of this future's task is called.
    CallAwaiter(u64, Waker, u64),
}

/// Parts of a poll of this future's handle, and of a notify of its awaiter.
#[derive(Clone, Copy, Debug)]
pub enum HandleOp {
    /// The first look, with this waker.
    Look(u64, Waker),
    /// The waker is copied, to be registered.
    CopyAwaiter(u64, Waker),
    /// The copy begins to be registered. The last number names the poll.
    Register(u64, Waker, u64),
    EndRegister(u64, Waker, u64),
    /// The poll looks again, after it has registered its waker.
    LookAgain(u64),
    /// The task's awaiter is notified, by a poll of the handle where the mark is set.
    Notify(u64, bool),
    EndNotify(u64, bool),
    /// The cell of the task is emptied, and its awaiter is let go, where it has one.
    LetGo(u64),
}

/// How a sleeper is told that there is something to do.
#[derive(Clone, Copy, Debug)]
pub enum SleeperOp {
    /// The flag is exchanged.
    ExchangeFlag,
    /// Who won the exchange takes the waker that was added last, where no sleeper is notified.
    HandOut,
    /// That waker is called.
    CallSleeper(Sleeping),
}

/// The making of a tick, and what ticks and runs both do: parts of their polls and drops. Those of a poll have who is
/// polled, the waker that the poll was given, and the poll.
#[derive(Clone, Copy, Debug)]
pub enum TickOp {
    /// A tick is made, with room to sleep in.
    MakeTick,
    /// It searches from the beginning: a tick takes a turn, and a run the first Runnable of its own queue.
    Search(Sleeping),
    /// A tick takes the first Runnable of one of the executor's queues.
    Look(Sleeping, Look),
    /// The waker is copied, to fall asleep with.
    CopyWaker(Sleeping),
    /// It falls asleep with the copy, or falls asleep again.
    FallAsleep(Sleeping),
    /// It wakes up.
    WakeUp(TickOrRun),
    /// It leaves the sleepers. Where it slept, its room is given back in a step of its own, once another was told in its place.
    Leave(TickOrRun),
}

/// What is done with the list of the runs' own queues under its write lock.
#[derive(Clone, Copy, Debug)]
pub enum Section {
    /// A run is made: room in the list, and an own queue.
    MakeRun,
    /// The own queue of the run that is polled comes into the list.
    Register(RunPoll),
    /// The own queue of this run goes from the list, in a call that is answered so.
    Unregister(u64, Reply),
}

/// What a party does with the list of the runs' own queues.
#[derive(Clone, Copy, Debug)]
pub enum ListOp {
    /// Its write lock is taken.
    LockWrite(Section),
    /// This is done under the write lock.
    Write(Section),
    /// The write lock is given back.
    UnlockWrite,
    /// Its read lock is taken, and the run's walk begins.
    LockRead(RunPoll),
    /// The read lock is given back.
    UnlockRead,
}

/// A queue that a run steals from.
#[derive(Clone, Copy, Debug, PartialEq, Eq)]
pub enum Source {
    /// The executor's queue of this mark.
    Common(Mark),
    /// The own queue of this run.
    Own(u64),
}

/// What a run goes on with once a steal has ended.
#[derive(Clone, Copy, Debug)]
pub enum Then {
    /// With this future, which it has found.
    Found(u64),
    /// With this future, which it has counted too, once it has stolen from the executor's plain queue.
    StealPlain(u64),
    /// With this future, which it has counted too.
    Run(u64),
    /// With its walk, from this place of the list on, where so many queues are still to go to.
    Walk(u64, u64),
}

/// A steal: the poll of the run that steals, where it steals from, and what it goes on with.
#[derive(Clone, Copy, Debug)]
pub struct Steal {
    pub poll: RunPoll,
    pub from: Source,
    pub then: Then,
}

/// Parts of a steal.
#[derive(Clone, Copy, Debug)]
pub enum StealOp {
    /// The length of the source is read.
    Length(Steal),
    /// The length of the own queue is read. The number is that of the source.
    OwnLength(Steal, u64),
    /// The first Runnable of the source is taken, and so many after it.
    Take(Steal, u64),
    /// A Runnable is appended to the own queue, with so many after it. The last number is its future's.
    Put(Steal, u64, u64),
}

/// Parts of the making, of a poll and of the drop of a run: what a run alone does, and the return of room.
#[derive(Clone, Copy, Debug)]
pub enum RunOp {
    /// Room is made to fall asleep in.
    MakeRoom,
    /// Room is given back: that which was just made, as the rest was refused, or that of a tick or run which slept and has left
    /// the sleepers.
    ReturnRoom,
    /// A turn is taken, which names the executor's queue that is looked at first.
    TakeTurn(RunPoll),
    /// The first Runnable of one of the executor's queues is taken.
    SearchCommon(RunPoll, Look),
    /// In a walk, the first Runnable of the own queue is taken. The walk goes on from this place of the list, where so
    /// many queues are still to go to.
    LookOwn(RunPoll, u64, u64),
    /// The waker that the poll was given is called, and stays.
    WakeOwn(RunPoll),
    /// The first Runnable that is left in the own queue of this run is scheduled, in a call that is answered so.
    Reschedule(u64, Reply),
}

/// Parts of the executor's drop, and of its leak.
#[derive(Clone, Copy, Debug)]
pub enum ClosingOp {
    /// It takes all futures and wakers out of the table.
    TakeOut,
    /// It begins to drop the next future.
    DropNext,
    /// It wakes the next waker.
    WakeNext,
    /// It closes the queue of this mark, the urgent one first.
    Close(Mark),
    /// It takes the next Runnable of this queue, the urgent one first, and ends where there is none in the plain one.
    Drain(Mark),
    /// The leak takes all wakers out of the table, which has none from then on.
    LeakOut,
    /// It wakes the next one.
    LeakNext,
}

/// One thing that a party has still to do. It is done in one step, but for user code, which begins
/// by a step and waits for its answer.
#[derive(Clone, Copy, Debug)]
pub enum Op {
    /// A move of this future's task that stands alone, and no part of a poll of the handle.
    Move(Move, u64),
    Table(TableOp),
    Queue(QueueOp),
    User(UserOp),
    Waker(WakerOp),
    Handle(HandleOp),
    Sleeper(SleeperOp),
    Tick(TickOp),
    List(ListOp),
    Steal(StealOp),
    Run(RunOp),
    Closing(ClosingOp),
    /// The call ends, in the step that did the last thing before.
    End(Reply, Hold),
}
