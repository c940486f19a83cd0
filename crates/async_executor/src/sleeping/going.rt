//! How a waker is dropped whose tick or run sleeps no more, or sleeps with another one, as its call has to do next.
ghost use Rattle.std.specs.Prelude.{◌≡◌};
ghost use Rattle.async_executor.specs.Deeds.{gone, LetsGo};
ghost use Rattle.async_executor.specs.Steps.{name_of};

use super::SleeperWaker;
use crate::deeds::Steps;
use crate::due::pay_next;
use crate::entry::Unlocked;
use crate::names::ExRealm;
use async_task::{Output, OutsideWaker, Runtime};

impl<W: OutsideWaker> SleeperWaker<W> {
    /// Drops it, with all that this leads to.
    pub fn let_go<T: Output, R: Runtime>(
        self,
        rt: R,
        realm: &'static ExRealm<T, W, R>,
        steps: &mut Steps,
        unlocked: &mut Unlocked,
    )
        requires { LetsGo (name_of self) steps.old }
        ensures { steps.new ≡ gone (name_of self) steps.old }
    {
        match self {
            SleeperWaker::Task(waker) => {
                let handed = steps.release(waker, rt, realm, unlocked);
                pay_next(rt, handed, steps, unlocked);
            }
            SleeperWaker::Outside(waker) => drop(waker),
        }
    }
}
