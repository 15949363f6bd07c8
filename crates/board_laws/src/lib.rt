//! What holds along every legal history of a board, as laws: the functions here do nothing, and the contract of each is a law.
//!
//! Reading order of the statements: `Points` (a point of a history, and what it is to hold along one), then one file a law:
//! `Pending`, `Effect`, `Resampling`, `Holds`, `Rings` and `Deassigned`, `Irqfds`, `Ticks`; and `Lawful`, all of them together.
#![tactic(auto)]

mod deassigned;
mod effect;
mod histories;
mod irqfds;
mod pending;
mod resampling;
mod ticks;

pub use deassigned::no_signal_of_deassigned_trigger;
pub use effect::{
    coalesced_and_ignored_change_no_request, ignored_masked_is_masked, lapics_stay_in_place,
    pic_pins_have_their_lines, statuses_without_effect_change_no_request,
};
pub use histories::legal_histories_keep_the_laws;
pub use irqfds::one_injection_of_an_irqfd;
pub use pending::{requests_stay_pending, sendings_are_logged};
pub use resampling::{each_acknowledge_resamples_once, resample_holds_for_resamplers};
pub use ticks::{
    busy_ticks_are_held_back, other_injections_follow_acknowledges, state_is_free_unless_reinjects,
    ticks_are_conserved, ticks_inject_free,
};
