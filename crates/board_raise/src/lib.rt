//! Signals of a board: a message is sent, a GSI is raised, lowered or injected.
//!
//! Reading order of the definitions: `Named` (for which processors a message is), `Send` (its five steps), `Signal` (a GSI is
//! raised, lowered or injected), `Fit` (parts that can belong to one board), `OnRow` (a sending on local APICs in hand),
//! `InHand` (the parts that the code has, as those of the model), `Told` (what the status of a sending tells), `Shown` (what
//! that of a signal tells), and then what holds of them: `Laws`, `Steady`, `PinLaws`, `ReachLaws`. The functions without a body
//! are laws: the contract of each is what holds.
#![tactic(auto)]

mod accesses;
mod board_rig;
mod holding;
mod lacks;
mod on_rig;
mod parts;
mod rig;
mod row;
mod sending;
mod signals;
mod wish_list;
mod words;

ghost use Rattle.board_raise.specs.Laws.{WishesChooseExactly, WishesReachExactly, IllegalVectorIsRecorded};
ghost use Rattle.board_raise.specs.PinLaws.{PicPinsFollowHolds, IoapicPinsFollowHolds};
ghost use Rattle.board_raise.specs.ReachLaws.{SendsReachTheSame, SignalsReachTheSame};
ghost use Rattle.board_raise.specs.Steady.{SendsSteadily};

pub use board_model::TriggerWord;
pub use board_rig::BoardRig;
pub use holding::{accept_pin, let_go, raise_ioapic, raise_pic};
pub use lacks::Lacks;
pub use on_rig::send;
pub use parts::{IoPart, Parts, PicPart, RegistryPart};
pub use rig::Rig;
pub use row::LapicRow;
pub use signals::{inject, lower_gsi, raise_gsi, send_of_pin};
pub use wish_list::WishList;
pub use words::Words;

/// A law: of some named processors the sets that are chosen under all wishes are those that may be reached.
#[tactic(auto, using(crate::proofs::Choice::wishes_choose_exactly))]
pub fn wishes_choose_exactly()
    ensures { WishesChooseExactly }
{}

/// A law: a message that comes to be sent is sent once, and the sets of processors that it reaches under all wishes are
/// those that it may reach: all the named ones of the board, or for lowest priority any one of least PPR.
#[tactic(auto, using(crate::proofs::SendExactly::wishes_reach_exactly))]
pub fn wishes_reach_exactly()
    ensures { WishesReachExactly }
{}

/// A law: a pin of the 8259A pair is raised on its chip by each hold that comes, lowered when the last hold goes, and stays
/// as it is while another source holds it.
pub fn pic_pins_follow_holds()
    ensures { PicPinsFollowHolds }
{}

/// A law: so it is of a pin of the I/O APIC.
pub fn ioapic_pins_follow_holds()
    ensures { IoapicPinsFollowHolds }
{}

/// A law: a sending looks at and writes the local APICs that its message tells, the same under all wishes.
pub fn sends_reach_the_same()
    ensures { SendsReachTheSame }
{}

/// A law: a signal that is raised, lowered or injected looks at and writes the chips on which its GSI has a pin, and where it
/// is raised the local APICs of the message that is sent, the same under all wishes.
pub fn signals_reach_the_same()
    ensures { SignalsReachTheSame }
{}

/// A law: a named processor that accepts a message with a vector below 16 records ESR bit 6, and nothing else of it changes.
pub fn illegal_vector_is_recorded()
    ensures { IllegalVectorIsRecorded }
{}

/// A law: the choice of a sending can be followed: to wish for what it reached is to reach it again.
pub fn sends_steadily()
    ensures { SendsSteadily }
{}
