// The rest between rounds.
ghost use Rattle.std.specs.Prelude.{◌≤◌};

use std::sync::Wait;
use std::sync::atomic::AtomicU64;
use std::time::Duration;

// The longest rest, in milliseconds.
const LONGEST: u64 = 50;

// How long the next rest is, in milliseconds: it grows while rounds do nothing.
#[derive(Clone, Copy)]
pub(crate) struct Rest {
    millis: u64,
}

impl Rest {
    pub(crate) fn new() -> Rest {
        Rest { millis: 1 }
    }

    // Sleeps, unless the round did something.
    pub(crate) fn after<R: Wait>(self, rt: &R, moved: bool) -> Rest {
        if moved {
            return Rest::new();
        }
        // Nobody wakes it, so that it sleeps its time.
        AtomicU64::new(0).park_timeout(rt, 0, Duration::from_millis(self.millis));
        Rest {
            millis: longer(self.millis),
        }
    }
}

fn longer(millis: u64) -> u64
    ensures { result ≤ 50 }
{
    millis.saturating_mul(2).min(LONGEST)
}
