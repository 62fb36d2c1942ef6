//! Which lines are said when.

use relay_notices::{Due, Failure, Limiter, Notice, Notices, Pending, Tally, Teller};
use std::alloc::{AllocError, Global};
use std::sync::{Arc, Wait};

// What is done to a limiter of two places.
#[derive(Clone, Copy)]
enum Act {
    // This is told of a place.
    Tell(usize, Notice),
    // It is looked at this time what is to be said: this of a place, with so many left out, or
    // nothing.
    Say(u64, Option<(usize, Notice, u64)>),
}

const FAILS: Notice = Notice::Fails(Failure::Refused);

const LOST: Notice = Notice::Fails(Failure::Lost);

static ACTS: [Act; 20] = [
    Act::Say(0, None),
    // That a place works that didn't fail isn't told.
    Act::Tell(0, Notice::Works),
    Act::Say(0, None),
    // The first is said at once.
    Act::Tell(0, FAILS),
    Act::Say(5, Some((0, FAILS, 0))),
    Act::Say(5, None),
    // Others are counted, and the last one is said when ten seconds have passed.
    Act::Tell(0, FAILS),
    Act::Tell(0, LOST),
    Act::Tell(0, Notice::Works),
    Act::Say(10_004, None),
    // Another place is said meanwhile.
    Act::Tell(1, Notice::GivenUp),
    Act::Say(10_004, Some((1, Notice::GivenUp, 0))),
    Act::Say(10_005, Some((0, Notice::Works, 2))),
    Act::Tell(0, Notice::Works),
    Act::Say(30_000, None),
    // Of what is no place nothing is said.
    Act::Tell(2, FAILS),
    Act::Say(30_000, None),
    // At the end all is said.
    Act::Tell(1, Notice::GivenUp),
    Act::Say(18_446_744_073_709_551_615, Some((1, Notice::GivenUp, 0))),
    Act::Say(18_446_744_073_709_551_615, None),
];

fn take(limiter: &mut Limiter<Global>, now: u64) -> Option<(usize, Notice, u64)> {
    let Due { place, pending } = limiter.take(now)?;
    let Pending { notice, left_out } = pending;
    Some((place, notice, left_out))
}

// Whether what is looked for is said.
fn goes(limiter: &mut Limiter<Global>, act: Act) -> bool {
    match act {
        Act::Tell(place, notice) => {
            limiter.tell(place, notice);
            true
        }
        Act::Say(now, said) => take(limiter, now) == said,
    }
}

fn all_go(limiter: &mut Limiter<Global>) -> bool {
    for act in &ACTS {
        if !goes(limiter, *act) {
            return false;
        }
    }
    true
}

fn are_said(alloc: Global) -> bool {
    match Limiter::new(alloc, 2) {
        Ok(mut limiter) => all_go(&mut limiter),
        Err(_) => false,
    }
}

#[test]
fn places_are_said_once_in_ten_seconds(rt: HostRuntime) {
    assert!(rt; are_said(rt.alloc()));
}

// Notices of three places.
fn three_places(alloc: Global) -> Result<Arc<Notices<Global>>, AllocError> {
    let mut names = Vec::new(alloc);
    for name in ["a", "b", "c"] {
        names.push(String::from_str(alloc, name)?)?;
    }
    Ok(Arc::new(alloc, Notices::new(alloc, names)?)?)
}

// Whether this is what is to be said next, of a place of this name.
fn is_next<R: Wait>(rt: &R, notices: &Notices<Global>, due: Due, name: &str) -> bool {
    notices.take(rt, 0) == Some(due) && notices.name(due.place) == Some(name)
}

// What is due of a place, with none left out.
fn due(place: usize, notice: Notice) -> Due {
    Due {
        place,
        pending: Pending {
            notice,
            left_out: 0,
        },
    }
}

// Tells of the first two places of a teller.
fn tell_both<R: Wait>(rt: &R, teller: &Teller<Global>) {
    teller.tell(rt, 0, FAILS);
    teller.another().tell(rt, 1, LOST);
}

// Tells of a place of nobody's.
fn tell_nobody<R: Wait>(rt: &R) {
    let silent: Teller<Global> = Teller::silent();
    silent.tell(rt, 0, Notice::GivenUp);
}

// Whether the second and the third place fail, and nothing else is said.
fn both_fail<R: Wait>(rt: &R, notices: &Notices<Global>) -> bool {
    is_next(rt, notices, due(1, FAILS), "b")
        && is_next(rt, notices, due(2, LOST), "c")
        && notices.take(rt, 0).is_none()
}

// Whether a teller tells of its own places.
fn tells_of_its_own<R: Wait>(alloc: Global, rt: &R) -> bool {
    let Ok(notices) = three_places(alloc) else {
        return false;
    };
    tell_both(rt, &Teller::new(&notices, 1));
    tell_nobody(rt);
    notices.places() == 3 && both_fail(rt, &notices)
}

// Who tells of places from the second one on.
#[test]
fn tellers_tell_of_their_own_places(rt: HostRuntime) {
    assert!(rt; tells_of_its_own(rt.alloc(), &rt));
}

// How often places fail and work.
static COUNTED: [(usize, bool, u64, u64); 3] = [
    (0, false, 0, 0),
    (1, false, 2, 2),
    (2, true, 1, 0),
];

// What is told of the second place.
static TOLD: [Notice; 4] = [FAILS, LOST, Notice::Works, Notice::Works];

// Tells of the second and the third place.
fn tell_all<R: Wait>(rt: &R, teller: &Teller<Global>) {
    for notice in &TOLD {
        teller.tell(rt, 0, *notice);
    }
    teller.tell(rt, 1, FAILS);
}

fn is_tallied<R: Wait>(rt: &R, notices: &Notices<Global>, place: usize, tally: Tally) -> bool {
    notices.tally(rt, place) == Some(tally)
}

fn are_tallied<R: Wait>(rt: &R, notices: &Notices<Global>) -> bool {
    for (place, is_failing, failures, works) in &COUNTED {
        let tally = Tally {
            is_failing: *is_failing,
            failures: *failures,
            works: *works,
        };
        if !is_tallied(rt, notices, *place, tally) {
            return false;
        }
    }
    notices.tally(rt, 3).is_none()
}

fn are_counted<R: Wait>(alloc: Global, rt: &R) -> bool {
    let Ok(notices) = three_places(alloc) else {
        return false;
    };
    tell_all(rt, &Teller::new(&notices, 1));
    notices.take(rt, 0).is_some() && are_tallied(rt, &notices)
}

// That a place works is counted where it isn't said, and what was said stays counted.
#[test]
fn places_are_counted(rt: HostRuntime) {
    assert!(rt; are_counted(rt.alloc(), &rt));
}
