//! Why an exchange of the front was lost.
ghost use Rattle.std.specs.Prelude.{◌≢◌};
ghost use Rattle.part_attempt.specs.Attempts.{IsLate};

use crate::not_now::NotNow;
use turn_book::Front;

/// Why an attempt gave way whose exchange found another front than that of its look.
pub fn late(had: Front, now: Front) -> NotNow
    requires { now ≢ had }
    ensures { IsLate had now result }
{
    if now.generation == had.generation {
        NotNow::Front {
            had: had.length,
            now: now.length,
        }
    } else {
        NotNow::Moved {
            from: had.generation,
            to: now.generation,
        }
    }
}
