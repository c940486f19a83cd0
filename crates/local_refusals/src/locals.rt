//! Executors of one thread.
use async_task::{Future, Poll, Runtime};
use local_executor::{
    LocalCancel, LocalExWaker, LocalExecutor, LocalFallible, LocalHandle, LocalRun, LocalTick,
    RunError, SpawnError, StaticLocalExecutor,
};
use refusal_rows::{
    Bell, Call, Drops, Job, LONG, Many, Place, Polled, ROWS, Report, Row, Runs, Turn, Turns, bell,
    of_fallible, of_task, of_tick, play, shown,
};
use std::alloc::Global;
use std::random::RandomSource;
use std::sync::atomic::Ordering::SeqCst;

/// How many places an executor has.
const LIMIT: usize = 4;

type TestWaker<R> = LocalExWaker<Bell, R>;

type TestExecutor<R> = LocalExecutor<Job, u64, Bell, R>;

type TestStatic<R> = StaticLocalExecutor<Job, u64, Bell, R>;

type TestTick<'a, R> = LocalTick<'a, Job, u64, Bell, R>;

type TestRun<'a, R> = LocalRun<'a, Job, u64, Bell, R, Job>;

/// What the program's executors are made with.
#[derive(Drop)]
struct Ground<'a, R: Runtime> {
    rt: R,
    alloc: Global,
    waker: &'a TestWaker<R>,
    drops: &'static Drops,
}

/// A handle.
#[derive(Drop)]
enum Handle<R: Runtime> {
    Task(LocalHandle<u64, Bell, R>),
    Fallible(LocalFallible<u64, Bell, R>),
    Cancel(LocalCancel<u64, Bell, R>),
}

impl<R: Runtime> Handle<R> {
    fn poll(&mut self, waker: &TestWaker<R>) -> Polled {
        match self {
            Handle::Task(task) => of_task(task.poll(waker)),
            Handle::Fallible(task) => of_fallible(task.poll(waker)),
            Handle::Cancel(cancel) => of_fallible(cancel.poll(waker)),
        }
    }
}

impl<R: Runtime> Turns for Handle<R> {
    fn turned(self, turn: Turn) -> Option<Self> {
        match (self, turn) {
            (Handle::Task(task), Turn::Fallible) => Some(Handle::Fallible(task.fallible())),
            (Handle::Task(task), Turn::Cancel) => Some(Handle::Cancel(task.cancel())),
            (Handle::Task(task), Turn::Detach) => {
                task.detach();
                None
            }
            _ => None,
        }
    }
}

/// An executor of either kind.
#[derive(Drop)]
enum OneOf<'a, R: Runtime> {
    Owned(&'a TestExecutor<R>),
    Static(&'a TestStatic<R>),
}

/// An executor, and the waker that its ticks, runs and handles are polled by.
#[derive(Drop)]
struct OnExecutor<'a, 'w, R: Runtime> {
    executor: OneOf<'a, R>,
    alloc: Global,
    waker: &'w TestWaker<R>,
    drops: &'static Drops,
}

impl<'a, 'w, R: Runtime> Runs<Handle<R>, TestTick<'a, R>, TestRun<'a, R>>
    for OnExecutor<'a, 'w, R> {
    fn job(&self, name: u64, wakes: u64) -> Job {
        Job {
            name,
            wakes,
            drops: self.drops,
        }
    }

    fn drops(&self) -> u64 {
        self.drops.load(SeqCst)
    }

    fn spawn(&self, job: Job) -> Result<Handle<R>, Job> {
        let spawned = match &self.executor {
            OneOf::Owned(executor) => executor.spawn(job),
            OneOf::Static(executor) => executor.spawn(job),
        };
        match spawned {
            Ok(task) => Ok(Handle::Task(task)),
            Err(SpawnError::NoMemory(job) | SpawnError::Full(job)) => Err(job),
        }
    }

    fn spawn_many(&self, from: u64, end: u64) -> Option<Many> {
        match &self.executor {
            OneOf::Owned(executor) => Some(many(executor, self.alloc, from, end, self.drops)),
            OneOf::Static(_) => None,
        }
    }

    fn tick(&self) -> Option<TestTick<'a, R>> {
        match &self.executor {
            OneOf::Owned(executor) => {
                let executor: &'a TestExecutor<R> = *executor;
                match executor.tick() {
                    Ok(tick) => Some(tick),
                    Err(_) => None,
                }
            }
            OneOf::Static(executor) => {
                let executor: &'a TestStatic<R> = *executor;
                match executor.tick() {
                    Ok(tick) => Some(tick),
                    Err(_) => None,
                }
            }
        }
    }

    fn run(&self, own: Job, is_seeded: bool) -> Result<TestRun<'a, R>, Job> {
        match &self.executor {
            OneOf::Owned(executor) => {
                let executor: &'a TestExecutor<R> = *executor;
                match is_seeded {
                    true => executor.run_from(own, 1),
                    false => executor.run(own),
                }
            }
            OneOf::Static(executor) => {
                let executor: &'a TestStatic<R> = *executor;
                match is_seeded {
                    true => executor.run_from(own, 1),
                    false => executor.run(own),
                }
            }
        }
    }

    fn try_tick(&self) -> bool {
        match &self.executor {
            OneOf::Owned(executor) => executor.try_tick(),
            OneOf::Static(executor) => executor.try_tick(),
        }
    }

    fn is_empty(&self) -> Option<bool> {
        match &self.executor {
            OneOf::Owned(executor) => Some(executor.is_empty()),
            OneOf::Static(_) => None,
        }
    }

    fn poll_tick(&self, tick: &mut TestTick<'a, R>) -> Polled {
        of_tick(tick.poll(self.waker))
    }

    fn poll_run(&self, run: &mut TestRun<'a, R>) -> Polled {
        match run.poll(self.waker) {
            Poll::Pending => Polled::Pending,
            Poll::Ready(Ok(number)) => Polled::Gave(number),
            Poll::Ready(Err(RunError::NoMemory)) => Polled::Refused,
            Poll::Ready(Err(RunError::Finished)) => Polled::Finished,
        }
    }

    fn poll_handle(&self, handle: &mut Handle<R>) -> Polled {
        handle.poll(self.waker)
    }

    fn shown(&self, all: bool) -> u64 {
        match &self.executor {
            OneOf::Owned(executor) => shown(*executor, all),
            OneOf::Static(executor) => shown(*executor, all),
        }
    }
}

/// Spawns jobs of these names and drops their handles.
fn many<R: Runtime>(
    executor: &TestExecutor<R>,
    alloc: Global,
    from: u64,
    end: u64,
    drops: &'static Drops,
) -> Many {
    let mut jobs = (from..end).map(|name| Job {
        name,
        wakes: 0,
        drops,
    });
    let mut handles = Vec::new(alloc);
    let refused = executor.spawn_many(&mut jobs, &mut handles);
    let accepted = handles.len() as u64;
    let back = match refused {
        Ok(()) => None,
        Err(SpawnError::NoMemory(job) | SpawnError::Full(job)) => Some(job.into_name()),
    };
    let next = match jobs.next() {
        Some(job) => Some(job.into_name()),
        None => None,
    };
    Many {
        accepted,
        back,
        next,
    }
}

/// An executor to make calls on.
fn on<'a, 'w, R: Runtime>(ground: &Ground<'w, R>, executor: OneOf<'a, R>) -> OnExecutor<'a, 'w, R> {
    OnExecutor {
        executor,
        alloc: ground.alloc,
        waker: ground.waker,
        drops: ground.drops,
    }
}

/// The handle of a future that is left in an executor, polled once.
fn leave<R: Runtime>(
    ground: &Ground<'_, R>,
    executor: &TestExecutor<R>,
    report: &mut Report,
) -> Option<Handle<R>> {
    report.go_on();
    let mut job = Job {
        name: 18,
        wakes: 1,
        drops: ground.drops,
    };
    for _ in 0..2 {
        match executor.spawn(job) {
            Ok(task) => {
                report.go_on();
                report.expect(executor.try_tick());
                return Some(Handle::Task(task));
            }
            Err(SpawnError::NoMemory(back) | SpawnError::Full(back)) => {
                report.is_refused(Call::Spawn);
                job = back;
            }
        }
    }
    None
}

/// An executor, which is made once more where that is refused.
fn owned<R: Runtime + RandomSource>(
    ground: &Ground<'_, R>,
    report: &mut Report,
) -> Option<TestExecutor<R>> {
    for _ in 0..2 {
        match LocalExecutor::new(ground.rt, ground.alloc, LIMIT) {
            Ok(executor) => return Some(executor),
            Err(_) => report.is_refused(Call::New),
        }
    }
    None
}

/// A static one.
fn lasting<R: Runtime + RandomSource>(
    ground: &Ground<'_, R>,
    report: &mut Report,
) -> Option<TestStatic<R>> {
    for _ in 0..2 {
        match StaticLocalExecutor::new(ground.rt, ground.alloc, LIMIT) {
            Ok(executor) => return Some(executor),
            Err(_) => report.is_refused(Call::New),
        }
    }
    None
}

/// Makes all calls, by a waker from outside.
pub fn try_locals<R: Runtime + RandomSource>(
    rt: R,
    alloc: Global,
    drops: &'static Drops,
    report: &mut Report,
) -> bool {
    let Some(bell) = bell(alloc, report) else {
        return false;
    };
    let waker = LocalExWaker::Outside(bell);
    let ground = Ground {
        rt,
        alloc,
        waker: &waker,
        drops,
    };
    try_both(&ground, report)
}

/// Makes all calls on a static executor, and on one that is not: that is leaked with a future in it, which goes on; another is
/// dropped with a future in it, whose task is closed.
fn try_both<R: Runtime + RandomSource>(ground: &Ground<'_, R>, report: &mut Report) -> bool {
    report.come_to(Place::StaticLocalExecutor);
    let Some(executor) = lasting(ground, report) else {
        return false;
    };
    play(on(ground, OneOf::Static(&executor)), ROWS, report);
    report.come_to(Place::LocalExecutor);
    let Some(executor) = owned(ground, report) else {
        return false;
    };
    play(on(ground, OneOf::Owned(&executor)), ROWS, report);
    play(on(ground, OneOf::Owned(&executor)), LONG, report);
    let left = leave(ground, &executor, report);
    let executor = executor.leak();
    play(
        on(ground, OneOf::Static(&executor)),
        &[Row::TryTick(true), Row::Drain],
        report,
    );
    is_left_with(left, ground.waker, Polled::Gave(18)) & ends(ground, report)
}

/// An executor is dropped with a future in it.
fn ends<R: Runtime + RandomSource>(ground: &Ground<'_, R>, report: &mut Report) -> bool {
    let Some(executor) = owned(ground, report) else {
        return false;
    };
    let left = leave(ground, &executor, report);
    drop(executor);
    is_left_with(left, ground.waker, Polled::Closed)
}

/// Whether a poll of the handle that was left ends so.
fn is_left_with<R: Runtime>(
    handle: Option<Handle<R>>,
    waker: &TestWaker<R>,
    wanted: Polled,
) -> bool {
    match handle {
        Some(mut handle) => handle.poll(waker) == wanted,
        None => false,
    }
}
