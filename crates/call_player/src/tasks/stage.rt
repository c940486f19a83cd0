//! What the tasks of a script are made of.
use crate::tasks::command::{Act, Item, Name};
use crate::tasks::counts::Happening;
use crate::tasks::scene::{SharedScene, copied};
use async_task::{
    Awaiter, Future, Poll, Realm, Returning, Runnable, Running, Runtime, Schedule, ScheduleInfo,
    Scheduled, TaskWaker, Wake,
};
use std::sync::Arc;

/// A future that does what its items say.
pub struct Actor<R: Runtime> {
    pub scene: SharedScene,
    pub rt: R,
    pub name: Name,
    pub items: Vec<Item>,
    /// Which item the next poll does.
    pub next: usize,
}

/// What a future gives. Its drop shows that nobody read it.
pub struct Output<R: Runtime> {
    pub scene: SharedScene,
    pub rt: R,
    pub name: Name,
    pub value: u64,
}

/// The schedule value, which puts a Runnable at the end of the list.
pub struct Line<R: Runtime> {
    pub scene: SharedScene,
    pub rt: R,
    pub name: Name,
}

/// A waker from outside.
#[derive(Drop)]
pub struct Bell<R: Runtime> {
    pub scene: SharedScene,
    pub rt: R,
    pub name: Name,
}

pub type Tasks<R> = Realm<Actor<R>, Output<R>, Line<R>, u64, Bell<R>>;

pub type ScriptScheduled<R> = Scheduled<Actor<R>, Output<R>, Line<R>, u64, Bell<R>, R>;

pub type ScriptRunnable<R> = Runnable<Actor<R>, Output<R>, Line<R>, u64, Bell<R>, R>;

pub type ScriptRunning<R> = Running<Actor<R>, Output<R>, Line<R>, u64, Bell<R>, R>;

pub type ScriptWaker<R> = TaskWaker<Actor<R>, Output<R>, Line<R>, u64, Bell<R>, R>;

pub type ScriptAwaiter<R> = Awaiter<Actor<R>, Output<R>, Line<R>, u64, Bell<R>, R>;

/// The drop of a waker.
fn drop_waker<R: Runtime>(_waker: Option<ScriptWaker<R>>) {}

impl<R: Runtime> Future<ScriptAwaiter<R>> for Actor<R> {
    type Output = Output<R>;

    fn poll(&mut self, waker: &ScriptAwaiter<R>) -> Poll<Output<R>> {
        self.scene.count(&self.rt, self.name, Happening::Poll);
        self.scene.show(&self.rt, "poll ", self.name, "");
        let value = self.act(waker);
        let next = self.next.saturating_add(1);
        if next < self.items.len() {
            self.next = next;
        }
        match value {
            Some(value) => {
                self.scene.show(&self.rt, "ready ", self.name, "");
                Poll::Ready(Output {
                    scene: copied(&self.rt, &self.scene),
                    rt: self.rt,
                    name: self.name,
                    value,
                })
            }
            None => {
                self.scene.show(&self.rt, "pending ", self.name, "");
                Poll::Pending
            }
        }
    }
}

impl<R: Runtime> Actor<R> {
    /// Does what the item of this poll says.
    fn act(&self, waker: &ScriptAwaiter<R>) -> Option<u64> {
        let item = self.items.get(self.next)?;
        for act in item.acts.iter() {
            match act {
                Act::Wake => waker.wake_by_ref(),
                Act::Keep => self.keep(waker),
            }
        }
        item.output
    }

    /// Keeps a copy of the waker in place of the newest one that is kept.
    fn keep(&self, waker: &ScriptAwaiter<R>) {
        let Some(Awaiter::Task(copy)) = waker.clone() else {
            return;
        };
        if let Some(old) = self.scene.newest(&self.rt, self.name) {
            drop_waker(old.redeem(self.rt, copy.realm()));
        }
        let copy = Returning::new(copy.store());
        self.scene.keep(&self.rt, self.name, copy);
    }
}

impl<R: Runtime> Drop for Actor<R> {
    fn drop(self) {
        let Self {
            scene,
            rt,
            name,
            items: _,
            next: _,
        } = self;
        scene.count(&rt, name, Happening::FutureDrop);
        scene.show(&rt, "drop ", name, "");
    }
}

impl<R: Runtime> Output<R> {
    /// The value, which is read.
    pub fn read(self) -> u64 {
        let Self {
            scene: _,
            rt: _,
            name: _,
            value,
        } = self;
        value
    }
}

impl<R: Runtime> Drop for Output<R> {
    fn drop(self) {
        let Self {
            scene,
            rt,
            name,
            value: _,
        } = self;
        scene.count(&rt, name, Happening::Loss);
        scene.show(&rt, "lose ", name, "");
    }
}

impl<R: Runtime> Schedule<ScriptScheduled<R>> for Line<R> {
    fn schedule(&self, runnable: ScriptScheduled<R>, info: ScheduleInfo) {
        self.scene.count(&self.rt, self.name, Happening::Schedule);
        let told = if info.woken_while_running {
            " (woken while running: true)"
        } else {
            " (woken while running: false)"
        };
        self.scene.show(&self.rt, "schedule ", self.name, told);
        let runnable = Returning::new(runnable.store());
        self.scene.push(&self.rt, self.name, runnable);
    }
}

impl<R: Runtime> Drop for Line<R> {
    fn drop(self) {
        let Self { scene, rt, name } = self;
        scene.count(&rt, name, Happening::ScheduleDrop);
    }
}

impl<R: Runtime> Wake for Bell<R> {
    ghost is_same = { λ a b. Unit {0} };

    fn wake(self) {
        self.wake_by_ref();
    }

    fn wake_by_ref(&self) {
        self.scene.show(&self.rt, "call ", self.name, "");
    }

    fn clone(&self) -> Option<Self> {
        match Arc::try_clone(&self.scene) {
            Ok(scene) => Some(Bell {
                scene,
                rt: self.rt,
                name: self.name,
            }),
            Err(_) => None,
        }
    }

    fn will_wake(&self, other: &Self) -> bool {
        self.name.0 == other.name.0
    }
}
