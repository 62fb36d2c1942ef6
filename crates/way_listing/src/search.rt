//! All messages on the way from the first ones.

ghost use Rattle.std.specs.Prelude.{◌≡◌, ◌≢◌, AllPairs, IfOk};
ghost use Rattle.way_listing.specs.Sendings.{AreOnTheirWay};

use crate::onward::onward;
use crate::sent::Sent;
use relay_net::Net;
use std::alloc::{AllocError, Allocator};

/// How many messages are looked at: a prefix that each round of a circle puts in front makes a new
/// tag each time.
const MOST: usize = 10_000;

/// Messages on their way, and whether they are all that are.
#[derive(Drop)]
pub(crate) struct Found<A: Allocator> {
    pub sent: Vec<Sent<A>, A>,
    pub are_all: bool,
}

/// The messages on the way from these, which come first.
pub(crate) fn search<A: Allocator + Copy>(
    alloc: A,
    net: &Net<A>,
    starts: Vec<Sent<A>, A>,
) -> Result<Found<A>, AllocError>
    requires { AllPairs (λ one other. one ≢ other) starts.items }
    ensures { IfOk result
        (λ found. AreOnTheirWay net.now starts.items found.sent.items found.are_all) }
{
    let mut sent = starts;
    let mut next = 0;
    while next < sent.len() && next < MOST {
        let here = sent[next].copied(alloc)?;
        onward(alloc, net, &here, &mut sent)?;
        next += 1;
    }
    let are_all = next >= sent.len();
    Ok(Found { sent, are_all })
}
