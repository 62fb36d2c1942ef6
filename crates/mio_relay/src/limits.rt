//! How many connections a loop has at most.

ghost use Rattle.std.specs.Prelude.{◌≡◌, min};
ghost use Rattle.mio_relay.specs.Limits.{most_connections};

use libc::types::rlimit;

/// How many connections a loop has at most, however many descriptors there are.
const MOST_CONNECTIONS: usize = 1_024;

/// How many descriptors are kept at most for what is no connection that came in: listeners, files,
/// and the connections to other relays.
const MOST_KEPT: usize = 64;

/// How many descriptors a process is taken to have, where the system doesn't say.
const USUAL_DESCRIPTORS: usize = 1_024;

/// How many connections a loop has at most in a process that may have so many descriptors: 1,024,
/// and no more than leave a quarter of the descriptors for all else, or 64 where that is fewer.
pub fn most_connections(descriptors: usize) -> usize
    ensures { result ≡ most_connections descriptors }
{
    let kept = (descriptors / 4).min(MOST_KEPT);
    descriptors.saturating_sub(kept).min(MOST_CONNECTIONS)
}

/// How many descriptors the process may have: what the system says, or 1,024 where it says nothing.
// TRUSTED: the system is asked for the process's own limit, and writes nothing else.
pub fn descriptor_limit() -> usize {
    let mut limit = rlimit {
        rlim_cur: 0,
        rlim_max: 0,
    };
    if libc::getrlimit(libc::RLIMIT_NOFILE, &mut limit) != 0 {
        return USUAL_DESCRIPTORS;
    }
    usize::try_from(limit.rlim_cur).unwrap_or(USUAL_DESCRIPTORS)
}
