//! A call is attempted on a running board, and waits for nobody.
ghost use Rattle.std.specs.Prelude.{◌≡◌, ◌++◌, [], true};
ghost use Rattle.irq_base.specs.Callers.{is_allowed};
ghost use Rattle.board_step.specs.History.{Legal};
ghost use Rattle.turn_book.specs.Histories.{IsPrefix};
ghost use Rattle.part_attempt.specs.Attempts.{IsBarred, GaveWay, IfEntered, IfBarred, IfGaveWay, OnNoEntry, OnAnswer, turns_found};
ghost use Rattle.part_reach.specs.Turns.{AddsReached, FindsReached, seen_before_own};
ghost use Rattle.part_board.specs.Seen.{pass_view, pass_seen, IsPassOf, Learnt};
ghost use Rattle.part_board.specs.Tried.{IsEntered};

use crate::live::LiveBoard;
use crate::pass::Pass;
use irq_base::{Call, Done, Events, Spent};
use part_attempt::{NotNow, Places};
use part_reach::attempt;

impl LiveBoard {
    /// One attempt of a call by the pass, which waits for nobody. The call is allowed to the caller of the pass.
    ///
    /// `Ok(Ok(done))`: the call has its entry, with the reply of `done` and the events that are handed out, at the place
    /// `done.at` of the history. `Ok(Err(spent))`: that limit bars the call where the pass now stands. `Err` tells why the attempt
    /// gave way: `Busy`, where it found the turn of that part taken; `Moved` and `Front`, where its one exchange found another
    /// front than its last look before. In all but the first case there is no entry, no event is handed out, and no part changes.
    ///
    /// It takes the turns of parts that the call reaches, and of no others, and holds none afterwards. It takes no memory.
    pub fn try_call(
        &self,
        pass: &mut Pass,
        call: &Call,
        events: &mut Events,
    ) -> Result<Result<Done, Spent>, NotNow>
        requires pass { IsPassOf self.now pass.old }
        requires allowed { is_allowed pass.old.caller call.now self.now.shape ≡ true }
        ensures pass { IsPassOf self.now pass.new }
        ensures caller { pass.new.caller ≡ pass.old.caller }
        ensures seen { IsPrefix (pass_seen pass.old) (pass_seen pass.new) }
        ensures legal { Legal self.now.shape (pass_seen pass.new) }
        ensures entered { IfEntered result (λ done. IsEntered pass.old.caller call.now done events.new.items (pass_seen pass.old) (pass_seen pass.new)) }
        ensures barred { IfBarred result (λ spent. IsBarred self.now.shape call.now spent (pass_seen pass.new)) }
        ensures learnt { OnNoEntry result (Learnt self.now.shape pass.old.caller (pass_seen pass.old) (pass_seen pass.new)) }
        ensures quiet { OnNoEntry result (events.new.items ≡ []) }
        ensures gave_way { IfGaveWay result (GaveWay (pass_view pass.old) (pass_view pass.new)) }
        ensures kept { OnAnswer result ((pass_view pass.new).misses ≡ (pass_view pass.old).misses) }
        ensures took { AddsReached self.now.shape pass.old.caller call.now (pass_seen pass.old) (seen_before_own result (pass_seen pass.new))
            (pass_view pass.old).took (pass_view pass.new).took }
        ensures found { (pass_view pass.new).found ≡ (pass_view pass.old).found ++ turns_found result }
        ensures reached { FindsReached self.now.shape pass.old.caller call.now result (pass_seen pass.new) }
    {
        let caller = pass.caller;
        let mut places = Places::new();
        attempt(
            &self.book,
            &mut pass.pen,
            &self.shape,
            &mut places,
            &mut pass.room,
            caller,
            call,
            events,
        )
    }
}
