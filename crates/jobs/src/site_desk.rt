ghost use Rattle.std.specs.Prelude.{All};
ghost use Rattle.std.proofs.lemmas.List.Elements.{All-nil};
ghost use Rattle.jobs.specs.Bringing.{CameByHandle};

use crate::Solved;
use crate::desk::{Awaits, Desk};
use crate::gate::Gate;
use crate::site::{Awaited, JobWaker, Next, Site};
use async_task::{NoMemory, Poll, Runtime};

/// A worker's desk at a site: it pops a job and spawns it, polls one that is due, and awaits that job's handle.
///
/// Its drop drops the handle that it awaits, which cancels that job.
pub struct SiteDesk<'e, G: Drop, R: Runtime> {
    site: &'e Site<G, R>,
    awaited: Option<Awaited>,
}

impl<'e, G: Drop, R: Runtime> SiteDesk<'e, G, R> {
    /// Makes a desk at this site.
    pub fn at(site: &'e Site<G, R>) -> Self {
        SiteDesk {
            site,
            awaited: None,
        }
    }
}

impl<G: Drop, R: Runtime> Drop for SiteDesk<'_, G, R> {
    fn drop(self) {
        let SiteDesk { site, awaited } = self;
        site.give_up(awaited);
    }
}

impl<G: Gate + Copy + Drop, R: Runtime> Desk for SiteDesk<'_, G, R> {
    ghost has_brought = { λ desk solved. All CameByHandle solved };

    ghost nothing = { λ desk. All-nil CameByHandle };

    fn begin(&mut self) -> Result<bool, NoMemory> {
        match self.site.begin() {
            Ok(Next::Begun(awaited)) => {
                self.awaited = Some(awaited);
                // The job is due. Polled here it has often come back before it is awaited, and its worker needn't fall asleep.
                let _ = self.site.try_tick();
                Ok(true)
            }
            Ok(Next::Lost) => Ok(true),
            Ok(Next::NoneLeft) => Ok(false),
            Err(NoMemory) => Err(NoMemory),
        }
    }
}

impl<G: Gate + Copy + Drop, R: Runtime> Awaits<JobWaker<R>> for SiteDesk<'_, G, R> {
    fn bring(&mut self, waker: &JobWaker<R>) -> Poll<Result<Option<Solved>, NoMemory>> {
        self.site.await_job(&mut self.awaited, waker)
    }
}
