//! How a run searches for a task, and steals.
ghost use Rattle.std.specs.Prelude.{◌≡◌};
ghost use Rattle.solo.specs.Steals as steals;

use crate::lines::FromLines;
use crate::names::Task;
use crate::runs::Sought;
use crate::solo::Solo;
use executor_parts::Mark;

/// What a run steals from.
#[derive(Clone, Copy, Debug, PartialEq, Eq)]
pub enum Source {
    /// The executor's queue of this mark.
    Common(Mark),
    /// The own queue of the run of this number.
    Own(u64),
}

impl<F, T, X> Solo<F, T, X> {
    /// A run's next task.
    ///
    /// 1. The first of its own queue.
    /// 2. The first of the queue that the turn names, or else of the other one; then it steals from there.
    /// 3. It walks round the queues that others look at.
    pub(crate) fn seek(&mut self, number: u64, start: u64) -> Sought
        ensures solo { self.new ≡ steals.sought number start self.old }
        ensures sought { result ≡ steals.seek_answer number start self.old }
    {
        match self.runs.pop(number) {
            Some(task) => Sought {
                task: Some(task),
                has_walked: false,
            },
            None => self.seek_further(number, start),
        }
    }

    fn seek_further(&mut self, number: u64, start: u64) -> Sought
        ensures solo { self.new ≡ steals.sought_further number start self.old }
        ensures sought { result ≡ steals.seek_further_answer number start self.old }
    {
        let FromLines { task, mark } = self.lines.search();
        match task {
            Some(task) => {
                self.steal(Source::Common(mark), number);
                Sought {
                    task: Some(task),
                    has_walked: false,
                }
            }
            None => self.walk(number, start),
        }
    }

    /// Round the queues that others look at, from the place that the starting word names: it steals from each but its own, until
    /// its own has a task, which it takes.
    fn walk(&mut self, number: u64, start: u64) -> Sought
        ensures solo { self.new ≡ steals.walked number start self.old }
        ensures sought { result ≡ steals.walk_answer number start self.old }
    {
        let count = self.runs.listed_count();
        if count == 0 {
            return Sought {
                task: None,
                has_walked: false,
            };
        }
        Sought {
            task: self.walk_round(number, count, (start % count as u64) as usize),
            has_walked: true,
        }
    }

    fn walk_round(&mut self, number: u64, count: usize, first: usize) -> Option<Task>
        ensures solo { self.new ≡ (steals.round count number count first self.old).1 }
        ensures task { result ≡ (steals.round count number count first self.old).0 }
    {
        let mut at = first;
        let mut left = count;
        while left > 0 {
            left -= 1;
            match self.look_at(number, at) {
                Some(task) => return Some(task),
                None => at = next_place(at, count),
            }
        }
        None
    }

    /// One step of a walk. It passes the run's own queue.
    fn look_at(&mut self, number: u64, at: usize) -> Option<Task>
        ensures solo { self.new ≡ steals.looked number at self.old }
        ensures task { result ≡ steals.look_answer number at self.old }
    {
        let other = self.runs.number_at(at);
        if other == number {
            return None;
        }
        self.steal(Source::Own(other), number);
        self.runs.pop(number)
    }

    /// From the urgent queue, and then from the plain one.
    pub(crate) fn steal_if(&mut self, is_due: bool, number: u64)
        ensures { self.new ≡ steals.stolen_if is_due number self.old }
    {
        if is_due {
            self.steal(Source::Common(Mark::Urgent), number);
            self.steal(Source::Common(Mark::Plain), number);
        }
    }

    /// Moves about half of the source's tasks into a run's own queue, in order, at most as many as it has free places.
    fn steal(&mut self, source: Source, number: u64)
        ensures { self.new ≡ steals.stolen source number self.old }
    {
        let share = share_of(self.length_of(source), self.runs.free(number));
        self.move_tasks(source, number, share);
    }

    /// Moves so many tasks. A take that finds nothing ends it.
    fn move_tasks(&mut self, source: Source, number: u64, count: usize)
        ensures { self.new ≡ steals.moved count source number self.old }
    {
        let mut left = count;
        while left > 0 {
            left -= 1;
            match self.take_from(source) {
                Some(task) => self.runs.push(number, task),
                None => return,
            }
        }
    }

    fn length_of(&self, source: Source) -> usize
        ensures { result ≡ steals.length_of source self.now }
    {
        match source {
            Source::Common(mark) => self.lines.len(mark),
            Source::Own(number) => self.runs.len(number),
        }
    }

    fn take_from(&mut self, source: Source) -> Option<Task>
        ensures solo { self.new ≡ steals.without_first source self.old }
        ensures task { result ≡ steals.first_of source self.old }
    {
        match source {
            Source::Common(mark) => self.lines.pop(mark),
            Source::Own(number) => self.runs.pop(number),
        }
    }
}

/// Half of the source, rounded up, at most as many as are free.
fn share_of(length: usize, free: usize) -> usize
    ensures { result ≡ steals.share length free }
{
    let half = length.div_ceil(2);
    if half < free { half } else { free }
}

/// The next place, counted round.
fn next_place(at: usize, count: usize) -> usize
    ensures { result ≡ steals.next_place at count }
{
    if at < count && at + 1 < count {
        at + 1
    } else {
        0
    }
}
