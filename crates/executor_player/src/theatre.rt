//! Where scripts are played, as code over any runtime type may know it. Such code gets no proof of calls on an executor whose
//! futures hold handles: so it is generic over what `Plays`, and a program that has its runtime value says which that is.
use crate::future::{Planned, ScriptFuture};
use crate::handle::{Handle, HoldIn};
use crate::outside::ScriptRealm;
use crate::playing::play_script;
use crate::shelf::{KeepIn, Keeper};
use async_task::Runtime;
use player_parts::PlayError;
use std::alloc::Global;
use std::marker::PhantomData;

/// Where scripts are played, each on an executor of its own.
pub trait Plays {
    /// Plays a script of `taskrun sim` on an executor of its own, owned or static, and gives the text of what happens: that of
    /// the simulator. It takes whole calls of one party, and no futures that run others in their polls: `begin`, `go`, `finish`
    /// and a `spawn` with an item `nest` are `NotWhole`. Of requests that a script refuses the copies of wakers are refused to the
    /// executor and its handles; a refused `spawn`, `tick` or `run` isn't handed to it. Before anything is played the first bad line is
    /// refused, and then the first that isn't whole. Behind a `leak` the executor is the static one that this gives. A static
    /// executor has no `end` and no `leak`, and `empty` is answered there by the player's own count of drops.
    fn play(&self, script: &[u8]) -> Result<Vec<u8>, PlayError>;
}

/// Where the futures of scripts are `F`, their handles `H`, and who keeps their wakers `K`. The tasks of all scripts lie in the
/// realm. A program writes it as a struct where it has its `rt`: no call that takes the realm beside such types gets a proof.
#[derive(Drop)]
pub struct Theatre<F, H, K, R: Runtime> {
    pub rt: R,
    pub alloc: Global,
    pub realm: &'static ScriptRealm<R>,
    pub kinds: PhantomData<(F, H, K)>,
}

/// The one that a program names.
pub type ExecutorPlayer<R> = Theatre<ScriptFuture<Handle<R>>, Handle<R>, Keeper<R>, R>;

impl<F: Planned<H, R>, H: HoldIn<R>, K: KeepIn<R>, R: Runtime> Plays for Theatre<F, H, K, R> {
    fn play(&self, script: &[u8]) -> Result<Vec<u8>, PlayError> {
        play_script::<F, H, K, R>(self.rt, self.alloc, self.realm, script)
    }
}
