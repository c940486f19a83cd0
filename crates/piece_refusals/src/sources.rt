//! A reactor and its sources. A source that was refused isn't there: the next one has the first place.
use async_task::{Nobody, Poll};
use reactor::{Reactor, Source, SourceError, Way};
use refusal_rows::{Call, Place, Report};
use std::alloc::Global;
use std::sync::Wait;

/// Makes a reactor and two sources, each once more where it is refused. Says whether all was as it has to be.
pub fn try_sources<R: Wait + Copy + Drop>(rt: R, alloc: Global, report: &mut Report) -> bool {
    report.come_to(Place::Reactor);
    let mut made = Reactor::<Nobody, R>::new(rt, alloc);
    if made.is_err() {
        report.is_refused(Call::New);
        made = Reactor::new(rt, alloc);
    }
    let Ok(reactor) = made else {
        return false;
    };
    let (Some(first), Some(second)) = (source(&reactor, report), source(&reactor, report)) else {
        return false;
    };
    let Poll::Ready(Ok(guard)) = first.poll_ready(Way::Read, &Nobody) else {
        return false;
    };
    guard.retain_ready();
    first.key() != second.key()
}

fn source<R: Wait + Copy + Drop>(
    reactor: &Reactor<Nobody, R>,
    report: &mut Report,
) -> Option<Source<Nobody, R>> {
    match reactor.source() {
        Err(SourceError::NoMemory) => {
            report.is_refused(Call::Source);
            reactor.source().ok()
        }
        made => made.ok(),
    }
}
