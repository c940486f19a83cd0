ghost use Rattle.std.specs.Prelude.{◌≡◌, IfOk, IfErr, IfSome};
ghost use Rattle.async_executor.specs.Accepting.{Accepts, IsRefusedAt, WakerFits};
ghost use Rattle.async_executor.specs.Errors.{refused};
ghost use Rattle.async_task.specs.Handles.{task_of};
ghost use Rattle.executor_parts.specs.Places.{IsVacancy};

use crate::closing::HasClosed;
use crate::errors::SpawnError;
use crate::marked::Marked;
use crate::names::{ExRealm, ExRunnable, ExTask, TableWaker};
use crate::queue::ExQueue;
use async_task::{Builder, Output, OutsideWaker, Returning, Runtime};
use executor_parts::{EntryPlace, Mark, Places, SpawnRefused, Vacancy};

/// Accepts a future: what a spawn does under the table's lock, once it has closed what was let go.
///
/// 1. Tests the limit.
/// 2. Makes the task's cell, which has the number of the future's place. Without memory for it, the place is given back.
/// 3. Enters the future, with a waker of the task, where the executor isn't static.
#[inline(always)]
pub fn accept<F: Drop, T: Output, W: OutsideWaker, R: Runtime>(
    table: &mut Places<F, TableWaker>,
    rt: R,
    realm: &'static ExRealm<T, W, R>,
    schedule: ExQueue<T, W, R>,
    is_static: bool,
    mark: Mark,
    future: F,
    closed: HasClosed,
) -> Result<(Marked, ExTask<T, W, R>), SpawnError<F>>
    ensures here { IfOk result (λ both. both.1.identity.realm ≡ realm.now.number) }
    ensures accepted { IfOk result (λ both. Accepts is_static table.old table.new future (task_of both.1)) }
    ensures one_task { IfOk result (λ both. both.0.stored.identity ≡ both.1.identity) }
    ensures queue { IfOk result (λ both. both.0.stored.metadata ≡ mark) }
    ensures marked { IfOk result (λ both. both.1.metadata ≡ mark) }
    ensures future { IfErr result (λ error. refused error ≡ future) }
    ensures cause { IfErr result (IsRefusedAt table.old) }
    ensures same { IfErr result (λ _. (table.new.entries ≡ table.old.entries) × (table.new.limit ≡ table.old.limit)) }
{
    closed.spend();
    match table.vacancy() {
        Ok(vacancy) => enter(table, vacancy, rt, realm, schedule, is_static, mark, future),
        Err(SpawnRefused::Full) => Err(SpawnError::Full(future)),
        Err(SpawnRefused::NoMemory) => Err(SpawnError::NoMemory(future)),
    }
}

/// The same once there is a place for the future.
#[inline(always)]
fn enter<F: Drop, T: Output, W: OutsideWaker, R: Runtime>(
    table: &mut Places<F, TableWaker>,
    vacancy: Vacancy,
    rt: R,
    realm: &'static ExRealm<T, W, R>,
    schedule: ExQueue<T, W, R>,
    is_static: bool,
    mark: Mark,
    future: F,
) -> Result<(Marked, ExTask<T, W, R>), SpawnError<F>>
    requires { IsVacancy vacancy table.old }
    ensures here { IfOk result (λ both. both.1.identity.realm ≡ realm.now.number) }
    ensures accepted { IfOk result (λ both. Accepts is_static table.old table.new future (task_of both.1)) }
    ensures one_task { IfOk result (λ both. both.0.stored.identity ≡ both.1.identity) }
    ensures queue { IfOk result (λ both. both.0.stored.metadata ≡ mark) }
    ensures marked { IfOk result (λ both. both.1.metadata ≡ mark) }
    ensures future { IfErr result (λ error. refused error ≡ future) }
    ensures cause { IfErr result (IsRefusedAt table.old) }
    ensures same { IfErr result (λ _. table.new ≡ table.old) }
{
    match made(rt, realm, schedule, is_static, mark, vacancy.place()) {
        Some((runnable, task, waker)) => {
            table.enter(vacancy, future, waker);
            Ok((Marked::of(runnable.into_scheduled()), task))
        }
        None => {
            vacancy.give_back();
            Err(SpawnError::NoMemory(future))
        }
    }
}

/// Makes a task of this mark whose future is at this place. Answers it with its handle and what the table keeps beside the future:
/// a waker, or none where the executor is static.
#[inline(always)]
fn made<T: Output, W: OutsideWaker, R: Runtime>(
    rt: R,
    realm: &'static ExRealm<T, W, R>,
    schedule: ExQueue<T, W, R>,
    is_static: bool,
    mark: Mark,
    place: EntryPlace,
) -> Option<(ExRunnable<T, W, R>, ExTask<T, W, R>, TableWaker)>
    ensures one_task { IfSome result (λ made. made.0 ≡ task_of made.1) }
    ensures marked { IfSome result (λ made. made.0.metadata ≡ mark) }
    ensures here { IfSome result (λ made. made.0.identity.realm ≡ realm.now.number) }
    ensures waker { IfSome result (λ made. WakerFits is_static made.2 made.1.identity) }
{
    let builder = Builder::new().metadata(mark);
    match builder.spawn(rt, realm, place, schedule) {
        Ok((runnable, task)) => {
            if is_static {
                return Some((runnable, task, None));
            }
            match runnable.waker() {
                Ok(waker) => Some((runnable, task, Some(Returning::new(waker.store())))),
                Err(_) => None,
            }
        }
        Err(_) => None,
    }
}
