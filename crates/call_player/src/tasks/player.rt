//! Plays commands, one after the other.
use crate::tasks::answer::Answer;
use crate::tasks::command::{Command, Item, Name};
use crate::tasks::handle::Handle;
use crate::tasks::kept::Keeps;
use crate::tasks::runs::OpenRun;
use crate::tasks::scene::{SharedScene, copied};
use crate::tasks::stage::{Actor, Line, Tasks};
use async_task::{Builder, Returning, Runtime};
use std::alloc::{AllocError, Global};

/// The tasks of a script. Their handles are kept by who calls.
#[derive(Drop)]
pub struct Player<R: Runtime> {
    pub rt: R,
    pub alloc: Global,
    pub realm: &'static Tasks<R>,
    pub scene: SharedScene,
}

impl<R: Runtime> Player<R> {
    /// A way to the scene.
    pub fn scene(&self) -> SharedScene {
        copied(&self.rt, &self.scene)
    }

    /// Plays a command, and shows what it answers.
    pub fn play<K>(&self, command: Command, kept: &mut K) -> Result<(), AllocError>
    where
        K: Keeps<Handle<R>, OpenRun<R>>,
    {
        let word = command.word();
        let answer = match command {
            Command::Spawn(name, metadata, items) => self.spawn(name, metadata, items, kept),
            Command::List(call) => self.list_call(call, kept),
            Command::Waker(call, name) => Ok(self.waker_call(call, name)),
            Command::Handle(call, name) => self.handle_call(call, name, kept),
            Command::Pair(call, first, second) => self.pair_call(call, first, second, kept),
        };
        let text = answer?.into_text(self.alloc)?;
        self.scene.answer(&self.rt, word, text.as_str())
    }

    /// Makes a task, whose Runnable goes to the end of the list.
    fn spawn<K>(
        &self,
        name: Name,
        metadata: u64,
        items: Vec<Item>,
        kept: &mut K,
    ) -> Result<Answer, AllocError>
    where
        K: Keeps<Handle<R>, OpenRun<R>>,
    {
        if !self.scene.is_new(&self.rt, name) {
            return Ok(Answer::NotPossible);
        }
        let future = Actor {
            scene: self.scene(),
            rt: self.rt,
            name,
            items,
            next: 0,
        };
        let line = Line {
            scene: self.scene(),
            rt: self.rt,
            name,
        };
        match Builder::new()
            .metadata(metadata)
            .spawn(self.rt, self.realm, future, line)
        {
            Ok((runnable, task)) => {
                self.scene.push(
                    &self.rt,
                    name,
                    Returning::new(runnable.into_scheduled().store()),
                );
                kept.put(name.0, Handle::Task(task))?;
                Ok(Answer::Ok)
            }
            Err(_) => Err(AllocError),
        }
    }
}
