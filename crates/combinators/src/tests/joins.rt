//! All of three or four, all or the first error, and the first of three: in each order in which children are ready, dropped at each
//! point.
use crate::tests::children::{Child, Plan, Seen, goes};
use crate::{Either3, Select3, join3, join4, select3, try_join, try_join3};
use async_task::{Future, Nobody, Poll};
use waiting::{join, pending, ready, yield_now};

/// How often all is polled at most: once more than the last child needs, and once after that.
const POLLS: u64 = 5;

#[test]
fn the_examples(rt: HostRuntime) {
    let mut all = join3(ready(1u64), yield_now(), ready(3u64));
    assert!(rt; matches!(all.poll(&Nobody), Poll::Pending));
    assert!(rt; matches!(all.poll(&Nobody), Poll::Ready((1, (), 3))));
    let mut all = join4(ready(1u64), yield_now(), ready(3u64), ready(4u64));
    assert!(rt; matches!(all.poll(&Nobody), Poll::Pending));
    assert!(rt; matches!(all.poll(&Nobody), Poll::Ready((1, (), 3, 4))));
    let mut both = try_join(pending::<Result<u64, u64>>(), ready(Err::<u64, u64>(7)));
    assert!(rt; matches!(both.poll(&Nobody), Poll::Ready(Err(7))));
    let mut all = try_join3(
        ready(Ok::<u64, u64>(1)),
        ready(Ok::<u64, u64>(2)),
        ready(Ok::<u64, u64>(3)),
    );
    assert!(rt; matches!(all.poll(&Nobody), Poll::Ready(Ok((1, 2, 3)))));
    let mut first = select3(pending::<u64>(), yield_now(), pending::<u64>());
    assert!(rt; matches!(first.poll(&Nobody), Poll::Pending));
    assert!(rt;
        matches!(
            first.poll(&Nobody),
            Poll::Ready(Either3::Second(((), _, _)))
        )
    );
}

/// When three children are ready, by the digits of a number below 27.
fn waits_of(digits: u64) -> [u64; 3] {
    [digits % 3, digits / 3 % 3, digits / 9 % 3]
}

fn seen3() -> [Seen; 3] {
    [Seen::new(), Seen::new(), Seen::new()]
}

/// All of three, and with a fourth that is ready at the second poll.
fn all_are_awaited(waits: [u64; 3], polls: u64) -> bool {
    let [one, two, three] = waits;
    let due = one.max(two).max(three);
    let seen = seen3();
    let [first, second, third] = &seen;
    let all = join3(
        Child::new(first, one),
        Child::new(second, two),
        Child::new(third, three),
    );
    let plan = Plan {
        waits: &waits,
        due,
        last: 2,
    };
    let three_are = goes(all, &plan, &seen, polls, &(one, two, three));
    let seen = [Seen::new(), Seen::new(), Seen::new(), Seen::new()];
    let [first, second, third, fourth] = &seen;
    let all = join4(
        Child::new(first, one),
        Child::new(second, 1),
        Child::new(third, two),
        Child::new(fourth, three),
    );
    let plan = Plan {
        waits: &[one, 1, two, three],
        due: due.max(1),
        last: 3,
    };
    three_are & goes(all, &plan, &seen, polls, &(one, 1, two, three))
}

#[test]
fn all_of_three_and_of_four(rt: HostRuntime) {
    for digits in 0..27 {
        for polls in 0..POLLS {
            assert!(rt;
                all_are_awaited(waits_of(digits), polls),
                "at {digits}, {polls} polls"
            );
        }
    }
}

/// The first that fails: when, and which. Where none fails, when all are ready.
fn over(waits: &[u64], fails: &[bool]) -> (u64, Option<usize>) {
    let mut all = 0u64;
    let mut first = None;
    for ((child, wait), fails) in waits.iter().enumerate().zip(fails) {
        all = all.max(*wait);
        first = match first {
            Some((due, _)) if due <= *wait => first,
            _ if *fails => Some((*wait, child)),
            _ => first,
        };
    }
    match first {
        Some((due, child)) => (due, Some(child)),
        None => (all, None),
    }
}

/// Which of three fail, by the digits of a number below 8.
fn fails_of(digits: u64) -> [bool; 3] {
    [digits % 2 == 1, digits / 2 % 2 == 1, digits / 4 % 2 == 1]
}

/// Two that may fail.
fn two_are_tried(waits: [u64; 3], fails: [bool; 3], polls: u64) -> bool {
    let [one, two, _] = waits;
    let [one_fails, two_fails, _] = fails;
    let (due, failed) = over(&[one, two], &[one_fails, two_fails]);
    let seen = [Seen::new(), Seen::new()];
    let [first, second] = &seen;
    let both = try_join(
        Child::fallible(first, one, one_fails),
        Child::fallible(second, two, two_fails),
    );
    let plan = Plan {
        waits: &[one, two],
        due,
        last: failed.unwrap_or(1),
    };
    let want = match failed {
        Some(_) => Err(due),
        None => Ok((one, two)),
    };
    goes(both, &plan, &seen, polls, &want)
}

/// Three that may fail.
fn three_are_tried(waits: [u64; 3], fails: [bool; 3], polls: u64) -> bool {
    let [one, two, three] = waits;
    let [one_fails, two_fails, three_fails] = fails;
    let (due, failed) = over(&waits, &fails);
    let seen = seen3();
    let [first, second, third] = &seen;
    let all = try_join3(
        Child::fallible(first, one, one_fails),
        Child::fallible(second, two, two_fails),
        Child::fallible(third, three, three_fails),
    );
    let plan = Plan {
        waits: &waits,
        due,
        last: failed.unwrap_or(2),
    };
    let want = match failed {
        Some(_) => Err(due),
        None => Ok((one, two, three)),
    };
    goes(all, &plan, &seen, polls, &want)
}

#[test]
fn all_or_the_first_error(rt: HostRuntime) {
    for digits in 0..216 {
        let (waits, fails) = (waits_of(digits / 8), fails_of(digits % 8));
        for polls in 0..POLLS {
            let is_well = two_are_tried(waits, fails, polls) & three_are_tried(waits, fails, polls);
            assert!(rt; is_well, "at {digits}, {polls} polls");
        }
    }
}

/// One's output, and the two others.
type Selected<'a> = Either3<
    (u64, Child<'a>, Child<'a>),
    (u64, Child<'a>, Child<'a>),
    (u64, Child<'a>, Child<'a>),
>;

/// Which was first, with its output and the two others.
fn apart<'a>(selected: Selected<'a>) -> (usize, u64, Child<'a>, Child<'a>) {
    match selected {
        Either3::First((output, second, third)) => (0, output, second, third),
        Either3::Second((output, first, third)) => (1, output, first, third),
        Either3::Third((output, first, second)) => (2, output, first, second),
    }
}

/// The first of three children, where the others are dropped at once.
#[derive(Drop)]
struct Race<'a> {
    select: Select3<Child<'a>, Child<'a>, Child<'a>>,
}

impl<'a> Race<'a> {
    fn new(waits: [u64; 3], seen: &'a [Seen; 3]) -> Race<'a> {
        let [one, two, three] = waits;
        let [first, second, third] = seen;
        Race {
            select: select3(
                Child::new(first, one),
                Child::new(second, two),
                Child::new(third, three),
            ),
        }
    }
}

impl<'a> Future<Nobody> for Race<'a> {
    type Output = u64;

    fn poll(&mut self, waker: &Nobody) -> Poll<u64> {
        match self.select.poll(waker) {
            Poll::Ready(selected) => {
                let (_which, output, one, two) = apart(selected);
                drop((one, two));
                Poll::Ready(output)
            }
            Poll::Pending => Poll::Pending,
        }
    }
}

/// The first of three is the one that is ready first. Of several it is the one that stands first, and those after it aren't
/// polled.
fn races(waits: [u64; 3], polls: u64) -> bool {
    let seen = seen3();
    let race = Race::new(waits, &seen);
    let (due, first) = over(&waits, &[true, true, true]);
    let plan = Plan {
        waits: &waits,
        due,
        last: first.unwrap_or(2),
    };
    goes(race, &plan, &seen, polls, &due)
}

/// The two others come back in their order, and go on where they were.
fn others_go_on(waits: [u64; 3]) -> bool {
    let seen = seen3();
    let mut race = Race::new(waits, &seen);
    for _ in 0..POLLS {
        if let Poll::Ready(selected) = race.select.poll(&Nobody) {
            let (which, _output, one, two) = apart(selected);
            let [first, second, third] = waits;
            let want = match which {
                0 => (second, third),
                1 => (first, third),
                _ => (first, second),
            };
            let mut both = join(one, two);
            for _ in 0..POLLS {
                if let Poll::Ready(outputs) = both.poll(&Nobody) {
                    return outputs == want;
                }
            }
        }
    }
    false
}

#[test]
fn the_first_of_three(rt: HostRuntime) {
    for digits in 0..27 {
        for polls in 0..POLLS {
            assert!(rt;
                races(waits_of(digits), polls),
                "at {digits}, {polls} polls"
            );
        }
        assert!(rt; others_go_on(waits_of(digits)), "at {digits}");
    }
}
