//! `ConcurrentQueue` called by several threads: each number that is accepted is taken out once, under forced pushes and
//! closes too. Wherever parties play it is looked at that numbers come in order, and that who saw the queue closed sees it so
//! ever after.
use crate::parties::{Role, all_play};

const PUSH: Role = Role::Push { most: 1000 };

const POP: Role = Role::Pop { most: 1000 };

const PUSH_ON: Role = Role::Push { most: u64::MAX };

const POP_ON: Role = Role::Pop { most: u64::MAX };

const CLOSE: Role = Role::Close { load: 500 };

const fn force(closes_after: u64) -> Role {
    Role::Force { closes_after }
}

#[test]
fn each_number_is_handed_over_once(rt: HostRuntime) {
    all_play(&rt, &[1, 8, 1024, 0], &[PUSH, PUSH, POP, POP], 0);
    all_play(&rt, &[1, 8], &[PUSH, POP], 0);
}

#[test]
fn a_queue_closed_under_load_loses_nothing(rt: HostRuntime) {
    let roles = [PUSH_ON, PUSH_ON, POP_ON, POP_ON, CLOSE, CLOSE];
    all_play(&rt, &[1, 8, 0], &roles, 1);
}

#[test]
fn threads_displace_and_close(rt: HostRuntime) {
    all_play(&rt, &[1, 8, 1024], &[force(2000), POP_ON], 1);
    let roles = [force(u64::MAX), POP_ON, PUSH_ON, CLOSE];
    all_play(&rt, &[1, 8, 1024], &roles, 1);
}

#[test]
fn who_pushed_finds_an_item_or_displaces_one(rt: HostRuntime) {
    all_play(&rt, &[4], &[Role::PushAndTake { by_force: false }; 4], 0);
    let roles = [Role::PushAndTake { by_force: true }; 4];
    all_play(&rt, &[4, 2, 1], &roles, 0);
}

#[test]
fn each_producers_items_come_in_order_under_displacement(rt: HostRuntime) {
    let all = force(u64::MAX);
    let roles = [all, all, POP_ON, POP_ON, Role::Close { load: 200_000 }];
    all_play(&rt, &[2, 8], &roles, 1);
}

// Of four closing calls one answers that it closed the queue, which then stays closed for each thread.
#[test]
fn a_queue_closes_once_and_for_good(rt: HostRuntime) {
    for _ in 0..50 {
        all_play(&rt, &[1, 4, 0], &[Role::Close { load: 0 }; 4], 1);
        let roles = [PUSH_ON, force(100), POP_ON, POP_ON];
        all_play(&rt, &[1, 4, 0], &roles, 1);
    }
}
