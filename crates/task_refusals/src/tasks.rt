//! Tasks without an executor.
use async_task::{
    Awaiter, Builder, Cancel, FallibleTask, Future, Parts, Realm, Returning, Runnable, Runtime,
    Schedule, ScheduleInfo, Scheduled, Task, spawn,
};
use refusal_rows::{
    Bell, Call, Drops, Ended, Job, Look, Place, Polled, Report, Trial, bell, of_fallible, of_task,
    poll_ended, try_each,
};
use std::alloc::Global;
use std::sync::Wait;
use std::sync::atomic::Ordering::SeqCst;

/// What is done with a task that is to be run again: it is closed.
#[derive(Clone, Copy, Drop)]
pub struct Close;

impl<R: Wait + Copy + Drop> Schedule<Scheduled<Job, u64, Close, (), Bell, R>> for Close {
    fn schedule(&self, runnable: Scheduled<Job, u64, Close, (), Bell, R>, _info: ScheduleInfo) {
        drop(Returning::new(runnable.store()));
    }
}

pub type TaskRealm = Realm<Job, u64, Close, (), Bell>;

type TestRunnable<R> = Runnable<Job, u64, Close, (), Bell, R>;

type TestTask<R> = Task<Job, u64, Close, (), Bell, R>;

type TaskAwaiter<R> = Awaiter<Job, u64, Close, (), Bell, R>;

/// A call on a task.
#[derive(Clone, Copy)]
enum TaskRow {
    /// A task of this name, by `spawn`.
    Spawn(u64),
    /// By a `Builder`.
    Build(u64),
    /// It is run.
    Run,
    /// Its handle is polled.
    Poll(Polled),
    Fallible,
    Cancel,
    /// Its handle is dropped.
    Drop,
}

/// What is made of tasks. The second has a place of its own, as the first is there.
const TASK_ROWS: &[TaskRow] = &[
    TaskRow::Spawn(1),
    TaskRow::Build(2),
    TaskRow::Fallible,
    TaskRow::Poll(Polled::Pending),
    TaskRow::Run,
    TaskRow::Poll(Polled::Gave(2)),
    TaskRow::Drop,
    TaskRow::Spawn(3),
    TaskRow::Poll(Polled::Pending),
    TaskRow::Poll(Polled::Pending),
    TaskRow::Run,
    TaskRow::Poll(Polled::Gave(3)),
    TaskRow::Poll(Polled::Closed),
    TaskRow::Drop,
    TaskRow::Spawn(4),
    TaskRow::Cancel,
    TaskRow::Poll(Polled::Pending),
    TaskRow::Run,
    TaskRow::Poll(Polled::Closed),
    TaskRow::Drop,
];

/// Makes these calls, and says whether there was memory for a waker from outside.
pub fn try_tasks<R: Runtime>(
    rt: R,
    alloc: Global,
    realm: &'static TaskRealm,
    drops: &'static Drops,
    report: &mut Report,
) -> bool {
    let Some(bell) = bell(alloc, report) else {
        return false;
    };
    let waker = Awaiter::Outside(bell);
    report.come_to(Place::Task);
    try_each(&mut Tasks::new(rt, realm, &waker, drops), TASK_ROWS, report);
    true
}

#[derive(Drop)]
enum Kept<R: Runtime> {
    Task(TestTask<R>),
    Fallible(FallibleTask<Job, u64, Close, (), Bell, R>),
    Cancel(Cancel<Job, u64, Close, (), Bell, R>),
}

/// A task: its Runnable and its handle.
#[derive(Drop)]
struct Tasks<'a, R: Runtime> {
    rt: R,
    realm: &'static TaskRealm,
    waker: &'a TaskAwaiter<R>,
    drops: &'static Drops,
    runnable: Option<TestRunnable<R>>,
    handle: Option<Kept<R>>,
    /// A future that a refused spawn handed back.
    back: Option<Job>,
}

impl<'a, R: Runtime> Tasks<'a, R> {
    fn new(
        rt: R,
        realm: &'static TaskRealm,
        waker: &'a TaskAwaiter<R>,
        drops: &'static Drops,
    ) -> Tasks<'a, R> {
        Tasks {
            rt,
            realm,
            waker,
            drops,
            runnable: None,
            handle: None,
            back: None,
        }
    }

    fn spawn(&mut self, name: u64, is_built: bool) -> Ended {
        let job = match self.back.take() {
            Some(job) => job,
            None => Job {
                name,
                wakes: 0,
                drops: self.drops,
            },
        };
        let spawned = if is_built {
            Builder::new().spawn(self.rt, self.realm, job, Close)
        } else {
            spawn(self.rt, self.realm, job, Close)
        };
        match spawned {
            Ok((runnable, task)) => {
                self.runnable = Some(runnable);
                self.handle = Some(Kept::Task(task));
                Ended::Well
            }
            Err(
                Parts {
                    future,
                    schedule: _,
                    metadata: _,
                },
            ) => {
                let is_same = future.name == name;
                self.back = Some(future);
                if is_same {
                    Ended::Refused
                } else {
                    Ended::Wrong
                }
            }
        }
    }

    fn run(&mut self) -> Ended {
        match self.runnable.take() {
            Some(runnable) => Ended::of(!runnable.run()),
            None => Ended::Wrong,
        }
    }

    fn poll(&mut self) -> Option<Polled> {
        match &mut self.handle {
            Some(Kept::Task(task)) => Some(of_task(task.poll(self.waker))),
            Some(Kept::Fallible(task)) => Some(of_fallible(task.poll(self.waker))),
            Some(Kept::Cancel(cancel)) => Some(of_fallible(cancel.poll(self.waker))),
            None => None,
        }
    }

    /// The handle becomes another.
    fn turn(&mut self, row: TaskRow) -> Ended {
        match (row, self.handle.take()) {
            (TaskRow::Fallible, Some(Kept::Task(task))) => {
                self.handle = Some(Kept::Fallible(task.fallible()));
            }
            (TaskRow::Cancel, Some(Kept::Task(task))) => {
                self.handle = Some(Kept::Cancel(task.cancel()));
            }
            (TaskRow::Drop, Some(handle)) => drop(handle),
            (_, handle) => {
                drop(handle);
                return Ended::Wrong;
            }
        }
        Ended::Well
    }

    fn is_finished(&self) -> bool {
        match &self.handle {
            Some(Kept::Task(task)) => task.is_finished(),
            Some(Kept::Fallible(task)) => task.is_finished(),
            _ => false,
        }
    }
}

impl<R: Runtime> Trial for Tasks<'_, R> {
    type Row = TaskRow;

    fn name(&self, row: TaskRow) -> Call {
        match row {
            TaskRow::Spawn(_) => Call::Spawn,
            TaskRow::Build(_) => Call::Build,
            _ => Call::PollHandle,
        }
    }

    fn look(&self, row: TaskRow) -> Look {
        let _ = row;
        Look {
            shown: self.is_finished() as u64,
            drops: self.drops.load(SeqCst),
        }
    }

    fn make(&mut self, row: TaskRow) -> Ended {
        match row {
            TaskRow::Spawn(name) => self.spawn(name, false),
            TaskRow::Build(name) => self.spawn(name, true),
            TaskRow::Run => self.run(),
            TaskRow::Poll(wanted) => poll_ended(self.poll(), wanted),
            TaskRow::Fallible | TaskRow::Cancel | TaskRow::Drop => self.turn(row),
        }
    }
}
