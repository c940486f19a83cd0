//! The calls on handles.
use crate::tasks::answer::Answer;
use crate::tasks::command::{HandleCall, Name, PairCall};
use crate::tasks::handle::Handle;
use crate::tasks::kept::Keeps;
use crate::tasks::player::Player;
use crate::tasks::runs::OpenRun;
use crate::tasks::stage::{Bell, ScriptAwaiter};
use async_task::{Awaiter, Runtime};
use std::alloc::AllocError;

impl<R: Runtime> Player<R> {
    /// A call of two names.
    pub fn pair_call<K>(
        &self,
        call: PairCall,
        first: Name,
        second: Name,
        kept: &mut K,
    ) -> Result<Answer, AllocError>
    where
        K: Keeps<Handle<R>, OpenRun<R>>,
    {
        match call {
            PairCall::Will => Ok(self.will(first, second)),
            PairCall::Poll => self.poll_outside(first, second, kept),
            PairCall::PollBy => self.poll_by(first, second, kept),
        }
    }

    /// Polls the handle of the first by the outside waker of the second.
    fn poll_outside<K>(&self, first: Name, second: Name, kept: &mut K) -> Result<Answer, AllocError>
    where
        K: Keeps<Handle<R>, OpenRun<R>>,
    {
        let bell = Bell {
            scene: self.scene(),
            rt: self.rt,
            name: second,
        };
        self.poll(first, &Awaiter::Outside(bell), kept)
    }

    /// Polls a handle. A Cancel that is over is dropped.
    pub fn poll<K>(
        &self,
        name: Name,
        waker: &ScriptAwaiter<R>,
        kept: &mut K,
    ) -> Result<Answer, AllocError>
    where
        K: Keeps<Handle<R>, OpenRun<R>>,
    {
        let Some(handle) = kept.take(name.0) else {
            return Ok(Answer::NotPossible);
        };
        let (handle, answer) = handle.poll(waker);
        if let Some(handle) = handle {
            kept.put(name.0, handle)?;
        }
        answer
    }

    /// A call on the handle of this name.
    pub fn handle_call<K>(
        &self,
        call: HandleCall,
        name: Name,
        kept: &mut K,
    ) -> Result<Answer, AllocError>
    where
        K: Keeps<Handle<R>, OpenRun<R>>,
    {
        if let HandleCall::Counts = call {
            return self.scene.counts(&self.rt, self.alloc, name);
        }
        let Some(handle) = kept.take(name.0) else {
            return Ok(Answer::NotPossible);
        };
        match call {
            HandleCall::Cancel => match self.changed(HandleCall::ToCancel, name, handle, kept)? {
                Answer::Done => self.poll_outside(name, name, kept),
                answer => Ok(answer),
            },
            HandleCall::Metadata | HandleCall::Finished | HandleCall::State => {
                let answer = self.look(call, &handle);
                kept.put(name.0, handle)?;
                answer
            }
            _ => self.changed(call, name, handle, kept),
        }
    }

    /// A call that gives the handle up, or makes it one of another type.
    fn changed<K>(
        &self,
        call: HandleCall,
        name: Name,
        handle: Handle<R>,
        kept: &mut K,
    ) -> Result<Answer, AllocError>
    where
        K: Keeps<Handle<R>, OpenRun<R>>,
    {
        let (handle, answer) = match call {
            HandleCall::Detach => handle.detach(),
            HandleCall::Fallible => handle.fallible(),
            HandleCall::ToCancel => handle.cancel(),
            _ => handle.give_up(),
        };
        if let Some(handle) = handle {
            kept.put(name.0, handle)?;
        }
        Ok(answer)
    }

    /// What a look at the handle finds.
    fn look(&self, call: HandleCall, handle: &Handle<R>) -> Result<Answer, AllocError> {
        match call {
            HandleCall::Metadata => Ok(handle.metadata()),
            HandleCall::Finished => Ok(handle.is_finished()),
            _ => handle.state(self.alloc),
        }
    }
}
