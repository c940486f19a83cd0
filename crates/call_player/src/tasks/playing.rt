//! What plays whole scripts.
use crate::tasks::error::PlayError;
use crate::tasks::handle::Handle;
use crate::tasks::kept::Keeps;
use crate::tasks::parser::{Script, parse};
use crate::tasks::player::Player;
use crate::tasks::runs::OpenRun;
use crate::tasks::scene::{Scene, copied};
use crate::tasks::stage::Tasks;
use async_task::Runtime;
use std::alloc::Global;

/// Plays scripts of calls on tasks.
pub trait PlaysTasks {
    /// What a script shows. The errors are `BadLine` with the first bad line, in which case nothing was played, and
    /// `NoMemory`. It takes memory.
    fn play(&mut self, script: &[u8]) -> Result<Vec<u8>, PlayError>;
}

/// Plays scripts on tasks that lie in a realm, and keeps their handles in `kept`. A program writes it as a struct where it has its
/// `rt`: no call that takes both `'static` realm and `kept` gets a proof.
#[derive(Drop)]
pub struct TaskPlayer<R: Runtime, K> {
    pub rt: R,
    pub alloc: Global,
    pub realm: &'static Tasks<R>,
    pub kept: K,
}

impl<R: Runtime, K: Keeps<Handle<R>, OpenRun<R>>> PlaysTasks for TaskPlayer<R, K> {
    fn play(&mut self, script: &[u8]) -> Result<Vec<u8>, PlayError> {
        let Script { names, commands } = parse(self.alloc, script)?;
        let scene = Scene::new(self.alloc, names)?;
        let player = Player {
            rt: self.rt,
            alloc: self.alloc,
            realm: self.realm,
            scene: copied(&self.rt, &scene),
        };
        for command in commands {
            player.play(command, &mut self.kept)?;
        }
        let shown = scene.shown(&self.rt, self.alloc)?;
        self.kept.clear();
        Ok(shown)
    }
}
