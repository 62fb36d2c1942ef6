//! How long a chunk waits.

ghost use Rattle.std.specs.Prelude.{◌≡◌, ◌≤◌};
ghost use Rattle.retry_waits.specs.Waits.{wait_after};

use crate::settings::RetrySettings;

// From this power on a base of two or more is past every u64, and 0 and 1 stay what they are.
const GREATEST_POWER: u64 = 64;

/// How many seconds a chunk waits after so many failures, one or more: the first wait times the
/// base to the power of the failures before the last, at most the longest interval, and
/// 18,446,744,073,709,551,615 where it would be more. It takes at most 64 turns.
#[tactic(auto, using(crate::proofs::Powers::cut_product, crate::proofs::Powers::cut_within))]
pub fn retry_after(settings: &RetrySettings, failures: u64) -> u64
    requires { 1 ≤ failures }
    ensures { result ≡ wait_after settings.now failures }
{
    let power = (failures - 1).min(GREATEST_POWER) as u32;
    let wait = settings
        .wait
        .saturating_mul(settings.exponential_backoff_base.saturating_pow(power));
    match settings.max_interval {
        Some(longest) => wait.min(longest),
        None => wait,
    }
}
