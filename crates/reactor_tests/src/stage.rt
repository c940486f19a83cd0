//! A reactor with two sources and three tasks, on one thread, on which rows are played.
use crate::bell::Bell;
use crate::script::Script;
use crate::words::same;
use async_task::Poll;
use reactor::{Heard, Reactor, ReadyGuard, Source, SourceError, Way};
use std::alloc::AllocGlobal;
use std::io::ErrorKind;
use std::process::Abort;
use std::sync::Wait;

/// How many bytes a read asks for.
pub const MOST: usize = 4;

/// What is done. Tasks are 0, 1 and 2, and the last has no copy of its waker to give; sources are 0 and 1.
#[derive(Clone, Copy)]
pub enum Step {
    /// A task polls a way, and leaves it ready where it is.
    Look(usize, usize, Way),
    /// As before, and reads where it is ready: that would block.
    Read(usize, usize, Way),
    /// As before, but the poller hears of the way while the task reads.
    ReadHearing(usize, usize, Way),
    /// A task polls a way, and reads so many bytes where it is ready.
    Move(usize, usize, Way, usize),
    /// As before, but the poller hears of the way while the task reads.
    MoveHearing(usize, usize, Way, usize),
    /// The poller hears of a way of the source.
    Hear(usize, Way),
    /// The poller hears of a way for the last time.
    End(usize, Way),
    /// The poller hears of both ways.
    HearBoth(usize),
    /// The source is dropped.
    Drop(usize),
    /// The reactor is closed.
    Close,
    /// One more source is asked for, and dropped.
    Ask,
}

/// What that answers.
#[derive(Clone, Copy, Debug, PartialEq, Eq, Drop)]
pub enum Answer {
    Ready,
    Waits,
    Blocked,
    /// So many bytes were read.
    Moved(usize),
    Closed,
    /// Whether the reactor is open, or a source was had.
    Open(bool),
    Nothing,
}

/// What is done, what it answers, and how often each task was called by then.
pub type Line = (Step, Answer, [u64; 3]);

#[derive(Drop)]
struct Stage<R: Wait + Copy + Drop> {
    rt: R,
    reactor: Reactor<Bell, R>,
    sources: Vec<Option<Source<Bell, R>>>,
    keys: Vec<usize>,
    bells: Vec<Bell>,
}

/// What a task does with a way that is ready.
#[derive(Clone, Copy)]
enum Deed {
    Leave,
    /// Reads, which would block or gives so many bytes. Meanwhile the poller may hear.
    Read(Option<usize>, bool),
}

fn heard(key: usize, way: Way) -> Heard {
    Heard {
        key,
        is_readable: way == Way::Read,
        is_writable: way == Way::Write,
        is_read_closed: false,
        is_write_closed: false,
    }
}

fn ended(key: usize, way: Way) -> Heard {
    Heard {
        key,
        is_readable: false,
        is_writable: false,
        is_read_closed: way == Way::Read,
        is_write_closed: way == Way::Write,
    }
}

/// A task polls, and leaves the way ready where it is.
pub fn look<R: Wait + Copy + Drop>(source: &Source<Bell, R>, bell: &Bell, way: Way) -> Answer {
    match source.poll_ready(way, bell) {
        Poll::Pending => Answer::Waits,
        Poll::Ready(Err(_closed)) => Answer::Closed,
        Poll::Ready(Ok(guard)) => {
            guard.retain_ready();
            Answer::Ready
        }
    }
}

impl<R: Wait + Copy + Drop + AllocGlobal + Abort> Stage<R> {
    fn new(rt: R) -> Self {
        let alloc = rt.alloc();
        let reactor = Reactor::new(rt, alloc).expect(&rt, "memory");
        let mut stage = Stage {
            rt,
            reactor,
            sources: Vec::new(alloc),
            keys: Vec::new(alloc),
            bells: Vec::new(alloc),
        };
        for _ in 0..2 {
            let source = stage.reactor.source().expect(&rt, "open");
            stage.keys.push(source.key()).expect(&rt, "memory");
            stage.sources.push(Some(source)).expect(&rt, "memory");
        }
        for task in 0..3 {
            let bell = Bell::new(&rt, task == 2);
            stage.bells.push(bell).expect(&rt, "memory");
        }
        stage
    }

    /// The poller hears of this.
    fn hear(&self, heard: Heard) -> Answer {
        let mut said = Vec::new(self.rt.alloc());
        said.push(heard).expect(&self.rt, "memory");
        let mut script = Script::new(said);
        match self.reactor.turn(&mut script, None) {
            Ok(open) => Answer::Open(open),
            Err(_) => Answer::Nothing,
        }
    }

    /// The poller may hear of the way.
    fn may_hear(&self, key: usize, way: Way, hears: bool) {
        if hears {
            let _open = self.hear(heard(key, way));
        }
    }

    /// A task reads; meanwhile the poller may hear.
    fn read(
        &self,
        guard: ReadyGuard<'_, Bell, R>,
        key: usize,
        way: Way,
        count: Option<usize>,
        hears: bool,
    ) -> Answer {
        let Some(count) = count else {
            let read = guard.try_io(|| {
                self.may_hear(key, way, hears);
                Err::<(), _>(ErrorKind::WouldBlock.into())
            });
            return match read {
                Err(_would_block) => Answer::Blocked,
                Ok(_done) => Answer::Ready,
            };
        };
        let read = guard.try_transfer(MOST, || {
            self.may_hear(key, way, hears);
            Ok(count)
        });
        match read {
            Err(_would_block) => Answer::Blocked,
            Ok(Ok(moved)) => Answer::Moved(moved),
            Ok(Err(_error)) => Answer::Nothing,
        }
    }

    /// A task polls a source, where both are there.
    fn poll(&self, task: usize, source: usize, way: Way, deed: Deed) -> Answer {
        let (Some(Some(source)), Some(bell)) = (self.sources.get(source), self.bells.get(task))
        else {
            return Answer::Nothing;
        };
        let Deed::Read(count, hears) = deed else {
            return look(source, bell, way);
        };
        let key = source.key();
        match source.poll_ready(way, bell) {
            Poll::Pending => Answer::Waits,
            Poll::Ready(Err(_closed)) => Answer::Closed,
            Poll::Ready(Ok(guard)) => self.read(guard, key, way, count, hears),
        }
    }

    fn key(&self, source: usize) -> usize {
        self.keys.get(source).copied().unwrap_or(usize::MAX)
    }

    fn drop_source(&mut self, source: usize) {
        if let Some(place) = self.sources.get_mut(source) {
            *place = None;
        }
    }

    fn ask(&self) -> Answer {
        match self.reactor.source() {
            Ok(source) => Answer::Open(!self.keys.iter().any(|key| *key == source.key())),
            Err(SourceError::Closed) => Answer::Open(false),
            Err(SourceError::NoMemory) => Answer::Nothing,
        }
    }

    fn play(&mut self, step: Step) -> Answer {
        match step {
            Step::Look(task, source, way) => self.poll(task, source, way, Deed::Leave),
            Step::Read(task, source, way) => {
                self.poll(task, source, way, Deed::Read(None, false))
            }
            Step::ReadHearing(task, source, way) => {
                self.poll(task, source, way, Deed::Read(None, true))
            }
            Step::Move(task, source, way, count) => {
                self.poll(task, source, way, Deed::Read(Some(count), false))
            }
            Step::MoveHearing(task, source, way, count) => {
                self.poll(task, source, way, Deed::Read(Some(count), true))
            }
            Step::Hear(source, way) => self.hear(heard(self.key(source), way)),
            Step::End(source, way) => self.hear(ended(self.key(source), way)),
            Step::HearBoth(source) => self.hear(Heard {
                key: self.key(source),
                is_readable: true,
                is_writable: true,
                is_read_closed: false,
                is_write_closed: false,
            }),
            Step::Drop(source) => {
                self.drop_source(source);
                Answer::Nothing
            }
            Step::Close => {
                self.reactor.close();
                Answer::Nothing
            }
            Step::Ask => self.ask(),
        }
    }
}

/// Plays a row on a stage of its own: each line answers so, and each task was called so often by then.
pub fn plays<R: Wait + Copy + Drop + AllocGlobal + Abort>(rt: R, lines: &[Line], row: usize) {
    let mut stage = Stage::new(rt);
    for (step, answer, calls) in lines {
        same(&rt, stage.play(*step), *answer, row);
        for (bell, count) in stage.bells.iter().zip(calls) {
            same(&rt, bell.calls(), *count, row);
        }
    }
}
