//! What is shown of an executor, as scenes, each on a stage of its own, with a thread for each part. A test hands over many at once:
//! a call where the type of the runtime value is named costs far more to prove than one over any such type.
use crate::parts::{Job, TestRealm};
use crate::stage::{Planned, Stage};
use crate::threads::{CHAIN, ROUNDS, outputs};
use async_task::Runtime;
use std::alloc::Global;
use std::process::Abort;
use std::sync::atomic::AtomicU64;
use std::sync::atomic::Ordering::SeqCst;
use std::test::Fail;
use std::thread::{self, Threads};

/// What is played, as `act` says. Three are for an executor of either kind: static or not.
#[derive(Clone, Copy)]
enum Scene {
    TooMany,
    OnePlace,
    Told,
    NoLock,
    InnerTick,
    Seeds(bool),
    Ticks(bool),
    Chain(bool),
    Sleep,
}

impl Scene {
    /// Whether its executor is static, and how many places that has.
    fn house(self) -> (bool, usize) {
        match self {
            Scene::Seeds(is_static) => (is_static, 8),
            Scene::Ticks(is_static) => (is_static, 1_000),
            Scene::Chain(is_static) => (is_static, CHAIN as usize),
            _ => (false, 8),
        }
    }

    /// How many threads play it.
    fn parts(self) -> usize {
        match self {
            Scene::NoLock | Scene::InnerTick | Scene::Ticks(_) | Scene::Sleep => 2,
            Scene::Chain(_) => 4,
            _ => 1,
        }
    }
}

/// Who plays a scene, as code over any runtime type may know it: such code gets no proof of threads that borrow an executor.
trait Plays {
    /// What comes before all threads; whether it went well.
    fn begin(&self) -> bool;

    /// What the thread of this number does; whether it went well.
    fn act(&self, part: usize) -> bool;

    /// Whether all is well once the threads are gone.
    fn is_well(&self) -> bool;
}

/// A stage, and what is played there.
#[derive(Drop)]
struct Company<F: Drop, R: Runtime> {
    stage: Stage<F, R>,
    scene: Scene,
    /// How often a tick fell asleep.
    slumbering: AtomicU64,
}

impl<F: Planned<R>, R: Runtime + Abort> Company<F, R> {
    fn new(rt: R, alloc: Global, realm: &'static TestRealm<R>, scene: Scene) -> Self {
        let (is_static, limit) = scene.house();
        Company {
            stage: Stage::new(rt, alloc, realm, is_static, limit),
            scene,
            slumbering: AtomicU64::new(0),
        }
    }
}

impl<F: Planned<R>, R: Runtime + Abort> Plays for Company<F, R> {
    fn begin(&self) -> bool {
        match self.scene {
            Scene::Ticks(_) => self.stage.spawn_all(1_000),
            Scene::Chain(_) => self.stage.spawn_chain(CHAIN),
            Scene::NoLock => self.stage.ask_from_now(),
            _ => true,
        }
    }

    fn act(&self, part: usize) -> bool {
        let stage = &self.stage;
        match (self.scene, part) {
            (Scene::TooMany, _) => stage.refuses_too_many_places(),
            (Scene::OnePlace, _) => stage.uses_one_place(),
            (Scene::Told, _) => stage.tells_its_own(),
            (Scene::NoLock, 0) => stage.takes_locks(),
            (Scene::NoLock, _) => stage.ask_all(),
            (Scene::InnerTick, 0) => stage.tick_when_asked(),
            (Scene::InnerTick, _) => stage.tick_the_first_of_two(),
            (Scene::Seeds(_), _) => stage.lets_two_runs_wait(),
            (Scene::Ticks(_), _) => stage.tick_until_empty(),
            (Scene::Chain(_), _) => stage.run_until_empty(part as u64),
            (Scene::Sleep, 0) => stage.tick_when_called(&self.slumbering, ROUNDS),
            (Scene::Sleep, _) => stage.spawn_when_asleep(&self.slumbering, ROUNDS),
        }
    }

    fn is_well(&self) -> bool {
        let notes = &self.stage.notes;
        let each = notes.each.as_slice();
        match self.scene {
            Scene::NoLock => self.stage.has_asked(12),
            Scene::InnerTick => self.stage.has_asked(1) & (notes.of(0).polls.load(SeqCst) == 1),
            // Each is polled twice, and gives one output.
            Scene::Ticks(_) => outputs(each, Some(2)) == Some(1_000),
            // Some outputs are given, and one future at least is cancelled: the last, before any thread runs.
            Scene::Chain(_) => {
                (outputs(each, None).unwrap_or(CHAIN) < CHAIN) & (notes.given.load(SeqCst) > 0)
            }
            // Each round the tick waits, a spawn on the other thread calls it, and its next poll finds that future.
            Scene::Sleep => notes.of(0).drops.load(SeqCst) == ROUNDS,
            _ => true,
        }
    }
}

/// Whether the scene goes well, with a thread for each of its parts.
fn play<P, R>(rt: &R, alloc: Global, company: &P, parts: usize) -> bool
where
    P: Plays + Sync,
    R: Threads + Sync,
{
    if !company.begin() {
        return false;
    }
    let Ok(ends) = thread::map_indices(rt, alloc, parts, &|part| { company.act(part) }) else {
        return false;
    };
    for is_well in &ends {
        if !*is_well {
            return false;
        }
    }
    company.is_well()
}

const SCENES: &[Scene] = &[
    Scene::TooMany,
    Scene::OnePlace,
    Scene::Told,
    Scene::NoLock,
    Scene::InnerTick,
    Scene::Seeds(false),
    Scene::Seeds(true),
    Scene::Ticks(false),
    Scene::Ticks(true),
    Scene::Sleep,
];

#[test]
fn each_scene_goes_well(rt: HostRuntime) -> Result<(), Fail> {
    let realm = TestRealm::leak(rt, rt.alloc())?;
    for (number, scene) in SCENES.iter().enumerate() {
        let company = Company::<Job<_>, _>::new(rt, rt.alloc(), realm, *scene);
        assert!(rt; play(&rt, rt.alloc(), &company, scene.parts()), "{number}");
    }
    Ok(())
}

#[test]
fn four_threads_run_what_awaits_cancels_and_detaches(rt: HostRuntime) -> Result<(), Fail> {
    let realm = TestRealm::leak(rt, rt.alloc())?;
    for is_static in [false, true] {
        let chain = Scene::Chain(is_static);
        let company = Company::<Job<_>, _>::new(rt, rt.alloc(), realm, chain);
        assert!(rt;
            play(&rt, rt.alloc(), &company, chain.parts()),
            "static: {is_static}"
        );
    }
    Ok(())
}
