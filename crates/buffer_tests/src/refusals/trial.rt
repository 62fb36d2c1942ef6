//! A call is made with one of its requests for memory refused, and then again.

use crate::refusals::told::Told;
use refusing_alloc::Refusing;
use std::alloc::{AllocError, Allocator, Global};
use std::process::Abort;

/// The allocator of the tests, which refuses what it is told to.
pub type Heap<'a> = &'a Refusing<Global>;

/// An allocator that refuses what it is told to.
pub trait Refuses: Allocator + Copy {
    /// From now on the request behind so many is refused.
    fn refuse_once(self, served: u64);

    /// From now on the requests behind so many are refused.
    fn refuse_after(self, served: u64);

    /// From now on each request is served. It says whether one was refused.
    fn end(self) -> bool;
}

impl Refuses for &Refusing<Global> {
    fn refuse_once(self, served: u64) {
        Refusing::refuse_once(self, served);
    }

    fn refuse_after(self, served: u64) {
        Refusing::refuse_after(self, served);
    }

    fn end(self) -> bool {
        let refused = self.refused();
        self.serve();
        refused > 0
    }
}

/// A state on which a call can be tried, with what the call moves in. It can be made again and
/// again.
pub trait Trial<A: Allocator + Copy, C: Copy>: Sized {
    /// The state before this call, behind so much of what it says. It is made with ample memory;
    /// none where it can't be made.
    fn made(heap: A, call: C, behind: usize) -> Option<Self>;

    /// Makes the call, and tells what it answers. The error is want of memory.
    fn call(&mut self, call: C, told: &mut Told) -> Result<(), AllocError>;

    /// Tells what the state shows.
    fn show(&mut self, told: &mut Told);

    /// Ends the state, and tells what is left of it.
    fn close(self, told: &mut Told);
}

// The request that is refused.
#[derive(Clone, Copy)]
struct Refusal {
    // how many are served before it
    served: u64,
    // whether those behind it are served again
    is_alone: bool,
}

// What is told of a state, and of what is left of it.
#[derive(Clone, Copy)]
struct Seen {
    shown: Told,
    left: Told,
}

// What is told where nothing is refused: of the state before the call, the answer, which is none
// for want of memory, and of the state behind it.
#[derive(Clone, Copy)]
struct Ample {
    before: Seen,
    answer: Option<Told>,
    behind: Seen,
}

// How a call went.
#[derive(Clone, Copy)]
enum Went {
    // No request was refused, and all is as it is with ample memory.
    Through,
    // One was refused, and the answer was want of memory; what there was stayed, and the next try
    // is as with ample memory.
    Refused,
    Wrong,
}

// A call that is tried behind so much of what it says, by this allocator.
#[derive(Clone, Copy)]
struct Bench<H, C> {
    heap: H,
    call: C,
    behind: usize,
}

// Whether the same is told of both.
fn is_seen(seen: Seen, other: Seen) -> bool {
    seen.shown.is(other.shown) && seen.left.is(other.left)
}

// Whether this answer is the one with ample memory.
fn is_answer(ample: &Ample, answer: Option<Told>) -> bool {
    match (ample.answer, answer) {
        (Some(told), Some(other)) => told.is(other),
        _ => false,
    }
}

// A call makes fewer requests than this.
const REQUESTS: u64 = 10_000;

impl<H: Refuses, C: Copy> Bench<H, C> {
    fn made<T: Trial<H, C>>(&self) -> Option<T> {
        T::made(self.heap, self.call, self.behind)
    }

    fn shown<T: Trial<H, C>>(&self, state: &mut T) -> Told {
        let mut told = Told::new();
        state.show(&mut told);
        told
    }

    fn closed<T: Trial<H, C>>(&self, state: T) -> Told {
        let mut told = Told::new();
        state.close(&mut told);
        told
    }

    fn see<T: Trial<H, C>>(&self, state: T) -> Seen {
        let mut state = state;
        Seen {
            shown: self.shown(&mut state),
            left: self.closed(state),
        }
    }

    // The answer of the call; none for want of memory.
    fn answered<T: Trial<H, C>>(&self, state: &mut T) -> Option<Told> {
        let mut told = Told::new();
        match state.call(self.call, &mut told) {
            Ok(()) => Some(told),
            Err(AllocError) => None,
        }
    }

    // What is told where nothing is refused, of this state before the call.
    fn ample_of<T: Trial<H, C>>(&self, before: Seen, state: T) -> Ample {
        let mut state = state;
        Ample {
            before,
            answer: self.answered(&mut state),
            behind: self.see(state),
        }
    }

    // What is told where nothing is refused.
    fn with_ample_memory<T: Trial<H, C>>(&self) -> Option<Ample> {
        let before = match self.made::<T>() {
            Some(state) => self.see(state),
            None => return None,
        };
        match self.made::<T>() {
            Some(state) => Some(self.ample_of(before, state)),
            None => None,
        }
    }

    // How the first try goes, with this request refused. Where none is, its answer is compared.
    fn first_try<T: Trial<H, C>>(&self, refusal: Refusal, state: &mut T, ample: &Ample) -> Went {
        if refusal.is_alone {
            self.heap.refuse_once(refusal.served);
        } else {
            self.heap.refuse_after(refusal.served);
        }
        let answer = self.answered(state);
        match (self.heap.end(), is_answer(ample, answer)) {
            (true, _) if answer.is_none() => Went::Refused,
            (false, true) => Went::Through,
            _ => Went::Wrong,
        }
    }

    // Whether a call that was refused left all as it was, and is answered the next time.
    fn goes_again<T: Trial<H, C>>(&self, state: &mut T, ample: &Ample) -> bool {
        let stayed = self.shown(state).is(ample.before.shown);
        is_answer(ample, self.answered(state)) && stayed
    }

    // How the call goes on this state with this request refused, and where it is, once more.
    fn goes<T: Trial<H, C>>(&self, refusal: Refusal, state: T, ample: &Ample) -> Went {
        let mut state = state;
        let went = self.first_try(refusal, &mut state, ample);
        let holds = !matches!(went, Went::Refused) || self.goes_again(&mut state, ample);
        if is_seen(self.see(state), ample.behind) && holds {
            went
        } else {
            Went::Wrong
        }
    }

    // Whether this request of the call on this state is refused, and leaves what was left before
    // the call.
    fn leaves<T: Trial<H, C>>(&self, refusal: Refusal, state: T, ample: &Ample) -> bool {
        let mut state = state;
        let went = self.first_try(refusal, &mut state, ample);
        self.closed(state).is(ample.before.left) && matches!(went, Went::Refused)
    }

    // How the call goes with this request refused.
    fn went<T: Trial<H, C>>(&self, refusal: Refusal, ample: &Ample) -> Went {
        match self.made::<T>() {
            Some(state) => self.goes(refusal, state, ample),
            None => Went::Wrong,
        }
    }

    // Whether it leaves what was left before.
    fn left<T: Trial<H, C>>(&self, refusal: Refusal, ample: &Ample) -> bool {
        match self.made::<T>() {
            Some(state) => self.leaves(refusal, state, ample),
            None => false,
        }
    }

    // How many requests the call makes, each of which is refused; or the one at which it goes
    // wrong.
    fn refused<T: Trial<H, C>>(&self, is_alone: bool, ample: &Ample) -> Result<u64, u64> {
        for served in 0..REQUESTS {
            let refusal = Refusal { served, is_alone };
            match self.went::<T>(refusal, ample) {
                Went::Through => return Ok(served),
                Went::Refused if self.left::<T>(refusal, ample) => {}
                _ => return Err(served),
            }
        }
        Err(REQUESTS)
    }

    // The same, with all behind it refused and alone. The first request is the wrong one where it
    // goes wrong with ample memory.
    fn refused_both_ways<T: Trial<H, C>>(&self) -> Result<u64, u64> {
        let Some(ample) = self.with_ample_memory::<T>() else {
            return Err(0);
        };
        match self.refused::<T>(false, &ample) {
            Ok(_) => self.refused::<T>(true, &ample),
            wrong => wrong,
        }
    }
}

/// How many requests this call makes, each of which is refused, with all behind it and alone.
///
/// Where it goes wrong, the process ends, and says what it stands behind and the number of the
/// request, which is 0 where it goes wrong with ample memory.
pub fn requests_of<R: Abort, H: Refuses, C: Copy, T: Trial<H, C>>(
    rt: &R,
    heap: H,
    call: C,
    behind: usize,
) -> u64 {
    match (Bench { heap, call, behind }).refused_both_ways::<T>() {
        Ok(requests) => requests,
        Err(served) => panic!(rt; "a call behind {behind} goes wrong at {served}"),
    }
}

/// How many it makes behind each of these.
pub fn requests_behind<R: Abort, H: Refuses, C: Copy, T: Trial<H, C>>(
    rt: &R,
    heap: H,
    call: C,
    behinds: &[usize],
) -> u64 {
    let mut requests = 0u64;
    for behind in behinds {
        requests = requests.saturating_add(requests_of::<R, H, C, T>(rt, heap, call, *behind));
    }
    requests
}

/// Whether each of these calls makes so many or more.
pub fn each_asks<R: Abort, H: Refuses, C: Copy, T: Trial<H, C>>(
    rt: &R,
    heap: H,
    calls: &[C],
    behinds: &[usize],
    least: u64,
) -> bool {
    for call in calls {
        if requests_behind::<R, H, C, T>(rt, heap, *call, behinds) < least {
            return false;
        }
    }
    true
}
