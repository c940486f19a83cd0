//! The calls on kept wakers.
use crate::tasks::answer::Answer;
use crate::tasks::command::{Name, WakerCall};
use crate::tasks::handle::Handle;
use crate::tasks::kept::Keeps;
use crate::tasks::player::Player;
use crate::tasks::runs::OpenRun;
use crate::tasks::scene::Entry;
use crate::tasks::stage::{ScriptAwaiter, ScriptWaker};
use async_task::{Awaiter, Returning, Runtime, Wake};
use std::alloc::AllocError;

impl<R: Runtime> Player<R> {
    /// A call on the kept wakers of this task.
    pub fn waker_call(&self, call: WakerCall, name: Name) -> Answer {
        if let WakerCall::Waker = call {
            return self.keep_of_list(name);
        }
        let Some(waker) = self.newest(name) else {
            return Answer::NotPossible;
        };
        match call {
            WakerCall::Wake => waker.wake(),
            WakerCall::WakeByRef => {
                waker.wake_by_ref();
                self.keep(name, waker);
            }
            WakerCall::Clone => {
                let copy = waker.clone();
                self.keep(name, waker);
                if let Some(copy) = copy {
                    self.keep(name, copy);
                }
            }
            WakerCall::Unkeep | WakerCall::Waker => drop(waker),
        }
        Answer::Done
    }

    /// Whether the newest kept wakers of both wake the same.
    pub fn will(&self, first: Name, second: Name) -> Answer {
        let Some(one) = self.newest(first) else {
            return Answer::NotPossible;
        };
        if first.0 == second.0 {
            let same = one.will_wake(&one);
            self.keep(first, one);
            return Answer::Is(same);
        }
        let answer = match self.newest(second) {
            Some(other) => {
                let same = one.will_wake(&other);
                self.keep(second, other);
                Answer::Is(same)
            }
            None => Answer::NotPossible,
        };
        self.keep(first, one);
        answer
    }

    /// Polls the handle of the first by the newest kept waker of the second.
    pub fn poll_by<K>(&self, first: Name, second: Name, kept: &mut K) -> Result<Answer, AllocError>
    where
        K: Keeps<Handle<R>, OpenRun<R>>,
    {
        let Some(waker) = self.newest(second) else {
            return Ok(Answer::NotPossible);
        };
        let waker = Awaiter::Task(waker);
        let answer = self.poll(first, &waker, kept);
        self.keep_again(second, waker);
        answer
    }

    /// Keeps a waker that a handle was polled by.
    fn keep_again(&self, name: Name, waker: ScriptAwaiter<R>) {
        match waker {
            Awaiter::Task(waker) => self.keep(name, waker),
            Awaiter::Lent(_) | Awaiter::Outside(_) => {}
        }
    }

    /// Takes the newest kept waker of this task out.
    fn newest(&self, name: Name) -> Option<ScriptWaker<R>> {
        match self.scene.newest(&self.rt, name) {
            Some(stored) => stored.redeem(self.rt, self.realm),
            None => None,
        }
    }

    fn keep(&self, name: Name, waker: ScriptWaker<R>) {
        self.scene
            .keep(&self.rt, name, Returning::new(waker.store()));
    }

    /// Keeps a waker of a Runnable in the list. The list goes round once, so that its order stays.
    fn keep_of_list(&self, name: Name) -> Answer {
        let mut answer = Answer::NotPossible;
        for _ in 0..self.scene.list_length(&self.rt) {
            let Some(Entry { task, runnable }) = self.scene.first(&self.rt) else {
                return answer;
            };
            let Some(runnable) = self.found(runnable) else {
                return answer;
            };
            if let (Answer::NotPossible, true) = (&answer, task.0 == name.0) {
                if let Ok(waker) = runnable.waker() {
                    self.keep(name, waker);
                    answer = Answer::Done;
                }
            }
            self.scene.push(
                &self.rt,
                task,
                Returning::new(runnable.into_scheduled().store()),
            );
        }
        answer
    }
}
