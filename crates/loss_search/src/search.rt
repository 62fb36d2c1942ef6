//! The search for steps that lose an event.

ghost use Rattle.std.specs.Prelude.{IfOk, IfSome};
ghost use Rattle.loss_search.specs.Losses.{Loses};

use crate::losing::{if_losing, loses_event};
use crate::tags::{ANY_PART, EMPTY_PART, Tags};
use crate::walk::{Halt, walk_event};
use crate::words::{patterns_of, words_of};
use loss_rules::Duty;
use relay_net::Net;
use std::alloc::{AllocError, Allocator};
use step_lines::Step;
use tag_pattern::{Plain, Tag};

// How many walks are tried at most for one tag.
const MOST_WALKS_OF_A_TAG: usize = 256;

// How much is tried in all, and how much of that once steps are known, for shorter ones: a
// comparison of two patterns costs one, a walk as much as some.
const MOST_WORK: u32 = 400_000;

const MOST_WORK_BEHIND: u32 = 32_000;

const WORK_OF_A_WALK: u32 = 16;

// No event is acknowledged in fewer steps.
const FEWEST_STEPS: usize = 3;

/// Steps that the network takes, after which an event that was acknowledged to a client isn't kept
/// as is asked. None where none are found, which doesn't mean that there are none.
///
/// One event is tried at a time, under tags that a pattern of its client has in common with those
/// that are given first, then tags of the client's pattern alone, then those that it has in common
/// with the patterns of the network's matches, and then tags of up to three words of these and of
/// the clients' patterns; then under such tags with empty parts. It is followed to each buffer on
/// its way, and on through the servers that these forward to; each output is tried by what it lets
/// go of. Of the steps so found the shortest are taken, and of equally many the first; once some
/// are found, the search for shorter ones is bounded. The only error is want of memory.
pub fn find<A: Allocator + Copy>(
    alloc: A,
    net: &Net<A>,
    duty: Duty,
    first: &[&Plain<A>],
) -> Result<Option<Vec<Step<A>, A>>, AllocError>
    ensures { IfOk result (λ found. IfSome found (λ steps. Loses duty net.now steps.items)) }
{
    match shortest(alloc, net, duty, first)? {
        Some(steps) => if_losing(alloc, net, duty, steps),
        None => Ok(None),
    }
}

// The shortest steps that were found.
fn shortest<A: Allocator + Copy>(
    alloc: A,
    net: &Net<A>,
    duty: Duty,
    first: &[&Plain<A>],
) -> Result<Option<Vec<Step<A>, A>>, AllocError> {
    let mut search = Search {
        alloc,
        net,
        duty,
        left: MOST_WORK,
        best: None,
    };
    let others = patterns_of(alloc, net)?;
    let mut words = words_of(alloc, net, &others)?;
    search.try_patterns(first, &others, ANY_PART)?;
    search.try_words(&words, false)?;
    words.push(EMPTY_PART)?;
    search.try_patterns(first, &others, EMPTY_PART)?;
    search.try_words(&words, true)?;
    Ok(search.best)
}

// A network in which steps are looked for, what is asked of its matches, how much work is left, and
// the shortest steps so far that lose an event. Each call does so much work at most as is left.
#[derive(Drop)]
struct Search<'n, A: Allocator> {
    alloc: A,
    net: &'n Net<A>,
    duty: Duty,
    left: u32,
    best: Option<Vec<Step<A>, A>>,
}

impl<A: Allocator + Copy> Search<'_, A> {
    // Tries tags of the clients' patterns: those in common with the patterns that are given first,
    // any, and those in common with others; with this for each part that is left open.
    fn try_patterns(
        &mut self,
        first: &[&Plain<A>],
        others: &[&Plain<A>],
        open: &[u8],
    ) -> Result<(), AllocError> {
        self.try_common(first, open)?;
        self.try_of_clients(open)?;
        self.try_common(others, open)
    }

    // Tries events of a client with a tag that one of its patterns and one of these have in common.
    fn try_common(&mut self, given: &[&Plain<A>], open: &[u8]) -> Result<(), AllocError> {
        for (client, sender) in self.net.clients().iter().enumerate() {
            for pattern in &sender.patterns {
                let tags = self.common_tags(pattern, given, open)?;
                self.try_tags(client, &tags)?;
            }
        }
        Ok(())
    }

    // The tags that the pattern has in common with these, as far as work is left.
    fn common_tags(
        &mut self,
        pattern: &Plain<A>,
        given: &[&Plain<A>],
        open: &[u8],
    ) -> Result<Tags<A>, AllocError> {
        let mut tags = Tags::new(self.alloc);
        for other in given {
            if self.left > 0 {
                self.left -= 1;
                tags.add_common(self.alloc, pattern, other, open)?;
            }
        }
        Ok(tags)
    }

    // Tries events of a client with a tag that is made of one of its patterns.
    fn try_of_clients(&mut self, open: &[u8]) -> Result<(), AllocError> {
        for (client, sender) in self.net.clients().iter().enumerate() {
            for pattern in &sender.patterns {
                let mut tags = Tags::new(self.alloc);
                tags.add_of(self.alloc, pattern, open)?;
                self.try_tags(client, &tags)?;
            }
        }
        Ok(())
    }

    // Tries events of a client with a tag of up to three of these words: with an empty part, or
    // without one.
    fn try_words(&mut self, words: &[&[u8]], has_empty: bool) -> Result<(), AllocError> {
        for (client, sender) in self.net.clients().iter().enumerate() {
            for pattern in &sender.patterns {
                if self.left < WORK_OF_A_WALK {
                    return Ok(());
                }
                let mut tags = Tags::new(self.alloc);
                tags.add_of_words(self.alloc, pattern, words, has_empty)?;
                self.try_tags(client, &tags)?;
            }
        }
        Ok(())
    }

    // Tries events of this client with each of these tags.
    fn try_tags(&mut self, client: usize, tags: &Tags<A>) -> Result<(), AllocError> {
        for tag in &tags.found {
            self.try_tag(client, tag)?;
        }
        Ok(())
    }

    // Tries an event of this client with this tag, by walks of few choices first.
    fn try_tag(&mut self, client: usize, tag: &Tag<A>) -> Result<(), AllocError> {
        let mut tries: Vec<Vec<usize, A>, A> = Vec::new(self.alloc);
        tries.push(Vec::new(self.alloc))?;
        for next in 0..MOST_WALKS_OF_A_TAG {
            let Some(choices) = tries.get(next) else {
                return Ok(());
            };
            if self.left < WORK_OF_A_WALK {
                return Ok(());
            }
            self.left -= WORK_OF_A_WALK;
            let ways = self.try_walk(client, tag, choices)?;
            add_choices(self.alloc, &mut tries, next, ways)?;
        }
        Ok(())
    }

    // Tries the walk with these choices. How many ways go on from where it is open, if it is, is
    // the result.
    fn try_walk(
        &mut self,
        client: usize,
        tag: &Tag<A>,
        choices: &[usize],
    ) -> Result<usize, AllocError> {
        match walk_event(self.alloc, self.net, self.duty, choices, client, tag) {
            Ok(steps) => {
                self.keep(steps)?;
                Ok(0)
            }
            Err(Halt::Open(ways)) => Ok(ways),
            Err(Halt::Kept) => Ok(0),
            Err(Halt::Memory) => Err(AllocError),
        }
    }

    // Keeps the steps, if they are fewer than those so far and lose an event. Less is tried then,
    // and nothing where there can be no fewer.
    fn keep(&mut self, steps: Vec<Step<A>, A>) -> Result<(), AllocError> {
        let count = steps.len();
        if self.best.as_ref().is_some_and(|best| best.len() <= count) {
            return Ok(());
        }
        if loses_event(self.alloc, self.net, self.duty, &steps)? {
            self.best = Some(steps);
            self.left = match count {
                0..=FEWEST_STEPS => 0,
                _ => self.left.min(MOST_WORK_BEHIND),
            };
        }
        Ok(())
    }
}

// Adds the choices of this number with each of so many ways behind them.
fn add_choices<A: Allocator + Copy>(
    alloc: A,
    tries: &mut Vec<Vec<usize, A>, A>,
    number: usize,
    ways: usize,
) -> Result<(), AllocError> {
    for way in 0..ways {
        let mut longer = match tries.get(number) {
            Some(choices) => Vec::from_slice(alloc, choices)?,
            None => Vec::new(alloc),
        };
        longer.push(way)?;
        tries.push(longer)?;
    }
    Ok(())
}
