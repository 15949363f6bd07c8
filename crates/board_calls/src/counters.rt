//! Counters are written and read (eventfd(2)).
ghost use Rattle.std.specs.Prelude.{◌≡◌, ◌<◌, ◌-◌, ◌^◌, length, IfSome};
ghost use Rattle.irq_base.specs.declared.shape.Shape.{Shape};
ghost use Rattle.board_model.specs.Run.{Wishes};
ghost use Rattle.board_calls.specs.Registrations.{count_written, take};
ghost use Rattle.board_calls.specs.Done.{Replies, IsMissing, SameInHand, FitsShape};

use board_raise::{Lacks, Parts};
use irq_base::{Part, Refusal, Reply};

/// Reads a counter, which is 0 from then on: `Count` above 0, else `Empty`.
#[tactic(auto, using(crate::proofs::InHand::in_hand_rules))]
pub fn take(parts: &mut Parts, counter: u16) -> Result<Reply, Lacks>
    requires { IfSome parts.old.counters (λ counts. counter < length counts) }
    ensures does { (ws : Wishes) → Replies (take counter) parts.old ws result parts.new ws }
    ensures missing { IsMissing result parts.old }
    ensures held { SameInHand parts.old parts.new }
    ensures fits { (shape : Shape) → FitsShape shape parts.old → FitsShape shape parts.new }
{
    let Some(counters) = &mut parts.counters else {
        return Err(Lacks {
            part: Part::Counters,
        });
    };
    match counters.take(counter) {
        None => Ok(Reply::Empty),
        Some(count) => Ok(Reply::Count(count)),
    }
}

/// Adds n to a counter that is no trigger: `Done`, or `Over` where the count would pass 2^64 - 2.
#[tactic(auto, using(crate::proofs::InHand::in_hand_rules))]
pub fn add(parts: &mut Parts, counter: u16, n: u64) -> Result<Reply, Lacks>
    requires counter { IfSome parts.old.counters (λ counts. counter < length counts) }
    requires count { n < 2 ^ 64 - 1 }
    ensures does { (ws : Wishes) → Replies (count_written counter n) parts.old ws result parts.new ws }
    ensures missing { IsMissing result parts.old }
    ensures held { SameInHand parts.old parts.new }
    ensures fits { (shape : Shape) → FitsShape shape parts.old → FitsShape shape parts.new }
{
    let Some(counters) = &mut parts.counters else {
        return Err(Lacks {
            part: Part::Counters,
        });
    };
    match counters.write(counter, n) {
        Ok(()) => Ok(Reply::Done),
        Err(_) => Ok(Reply::Refused(Refusal::Over)),
    }
}
