//! What calls ask their owner to do: he queues tasks, calls and drops who awaits them, and drops what they are made of.
use crate::tasks::command::Name;
use crate::tasks::counts::Happening;
use crate::tasks::local::Owner;
use crate::tasks::local::seat::Caller;
use async_task::ScheduleInfo;

impl Owner {
    /// Counts what happened to a task.
    pub fn count(&mut self, name: Name, happening: Happening) {
        if let Some(seat) = self.seats.get_mut(name.0) {
            seat.counts.count(happening);
        }
    }

    /// Queues a task, where it has to be scheduled.
    pub fn queue(&mut self, name: Name, info: Option<ScheduleInfo>) {
        let Some(info) = info else {
            return;
        };
        self.count(name, Happening::Schedule);
        let told = if info.woken_while_running {
            " (woken while running: true)"
        } else {
            " (woken while running: false)"
        };
        self.show("schedule ", name, told);
        if self.list.push_back(name).is_err() {
            self.is_short = true;
        }
    }

    /// Wakes a task.
    pub fn wake(&mut self, name: Name) {
        let info = match self.task(name) {
            Some(task) => task.wake(),
            None => None,
        };
        self.queue(name, info);
    }

    /// Drops a waker of a task.
    pub fn release(&mut self, name: Name) {
        if let Some(task) = self.task(name) {
            if task.has_waker() {
                let info = task.release();
                self.queue(name, info);
            }
        }
        self.note_who_is_left(name);
    }

    /// Calls who awaited a task.
    pub fn call(&mut self, awaiter: Option<Caller>) {
        match awaiter {
            Some(Caller::Bell(name)) => self.show("call ", name, ""),
            Some(Caller::Task(name)) => {
                self.wake(name);
                self.release(name);
            }
            None => {}
        }
    }

    /// Drops who awaited a task.
    pub fn let_go(&mut self, awaiter: Option<Caller>) {
        match awaiter {
            Some(Caller::Task(name)) => self.release(name),
            Some(Caller::Bell(_)) | None => {}
        }
    }

    /// The drop of a future.
    pub fn drop_future(&mut self, name: Name) {
        self.count(name, Happening::FutureDrop);
        self.show("drop ", name, "");
    }

    /// The drop of an output, where one is there.
    pub fn lose(&mut self, name: Name, output: Option<u64>) {
        if output.is_none() {
            return;
        }
        self.count(name, Happening::Loss);
        self.show("lose ", name, "");
    }

    /// Drops the schedule value of a task that nobody can reach any more.
    pub fn note_who_is_left(&mut self, name: Name) {
        if let Some(seat) = self.seats.get_mut(name.0) {
            if seat.is_left_now() {
                seat.counts.count(Happening::ScheduleDrop);
            }
        }
    }
}
