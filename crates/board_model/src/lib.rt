//! The model of a board that later contracts cite: its parts, and what a call does, as a plan over parts.
//!
//! A **plan** (`specs/Plan.antt`) looks at parts, writes parts, tells events, answers, and makes the one free choice of the
//! board: which processor of least priority takes a message sent to the lowest. It has three meanings (`specs/Run.antt`):
//! `run` on a whole board (`specs/Board.antt`), `run_on` on the parts in hand (`specs/Hand.antt`), and `reaches`, the parts
//! that it looks at or writes. What a choice reached shows at once, in an event or in the reply.
//!
//! Reading order of the definitions: `Registry`, `Routing`, `Published`, `Chips`, `Board`, `Hand`, `Statuses`, `Plan`, `Run`,
//! `Agreement`, `Following`, `Laws`. The functions here have no body; the contract of each is a law.
#![tactic(auto)]

mod trigger;
mod width;

ghost use Rattle.board_model.specs.Laws.{UnreachedStays, FrameStays, AgreeingAlike, ShownDecides, ExactOnParts, LackingExactly, LackingIsNotHeld, ShownFollowed, RunInSequence, RunOnInSequence, ReachesInSequence, StatusShowsSets, PinsFollowHolds, WordsTellTheRouting, PublishedDecides, PublishesAsMany, PublishedDecidesTheTable};

pub use trigger::TriggerWord;
pub use width::WORDS;

/// A law: a part outside the reach of a plan stays as it is.
#[tactic(auto, using(crate::proofs::Staying::unreached_stays))]
pub fn unreached_stays<A>()
    ensures { UnreachedStays A }
{}

/// A law: a plan leaves the shape, the number of local APICs and the two counts.
#[tactic(auto, using(crate::proofs::Staying::frame_stays))]
pub fn frame_stays<A>()
    ensures { FrameStays A }
{}

/// A law: on boards that agree on each part that it reaches, a plan runs alike and has the same reach.
pub fn agreeing_alike<A>()
    ensures { AgreeingAlike A }
{}

/// A law: the events and answers of a run decide its value, the messages sent and the board after it, whatever was
/// wished.
#[tactic(auto, using(crate::proofs::Showing::shown_decides))]
pub fn shown_decides<A>()
    ensures { ShownDecides A }
{}

/// A law: on parts in hand of a board a plan gives what it gives on the board, or it lacks a part that it reaches and
/// that is not in hand.
#[tactic(auto, using(crate::proofs::OnParts::exact_on_parts))]
pub fn exact_on_parts<A>()
    ensures { ExactOnParts A }
{}

/// A law: on parts in hand of a board a plan lacks a part exactly where it reaches one that is not in hand.
pub fn lacking_exactly<A>()
    ensures { LackingExactly A }
{}

/// A law: on any parts in hand, of a board or not, what a plan lacks is a part that is not in hand.
#[tactic(auto, using(crate::proofs::OnParts::lacking_is_not_held))]
pub fn lacking_is_not_held<A>()
    ensures { LackingIsNotHeld A }
{}

/// A law: a plan that is run again under the wishes that its log shows makes the same choices, if to wish for what was
/// chosen is to choose it.
#[tactic(auto, using(crate::proofs::Followed::shown_followed))]
pub fn shown_followed<A>()
    ensures { ShownFollowed A }
{}

/// A law: a plan and then another, run on a board, are the one run and then the other.
#[tactic(auto, using(crate::proofs::Sequence::run_rules))]
pub fn run_in_sequence<A, B>()
    ensures { RunInSequence A B }
{}

/// A law: a plan and then another, run on parts in hand, are the one run and then the other, and lack what either lacks
/// first.
#[tactic(auto, using(crate::proofs::Sequence::run_on_rules))]
pub fn run_on_in_sequence<A, B>()
    ensures { RunOnInSequence A B }
{}

/// A law: a plan and then another reach what the one reaches, and what the other then reaches.
#[tactic(auto, using(crate::proofs::Sequence::reaches_rules))]
pub fn reaches_in_sequence<A, B>()
    ensures { ReachesInSequence A B }
{}

/// A law: the status of a sending shows which processors it reached newly, and at which its request stood already.
#[tactic(auto, using(crate::proofs::Showing::status_rules))]
pub fn status_shows_sets()
    ensures { StatusShowsSets }
{}

/// A law: the part of a chip with pins is what its chip makes of it, and a chip comes out of a part as it was put in, where
/// its pins are those that are held.
#[tactic(auto, using(crate::proofs::Pins::pins_follow_holds))]
pub fn pins_follow_holds()
    ensures { PinsFollowHolds }
{}

/// A law: a sound registry publishes [`WORDS`] words, and these words tell its routing.
pub fn words_tell_the_routing()
    ensures { WordsTellTheRouting }
{}

/// A law: two sound registries that publish the same words have the same routing.
#[tactic(auto, using(crate::proofs::Words::published_decides))]
pub fn published_decides()
    ensures { PublishedDecides }
{}

/// A law: every board publishes [`WORDS`] words, whatever its registry.
#[tactic(auto, using(crate::proofs::Tables::publishes_as_many))]
pub fn publishes_as_many()
    ensures { PublishesAsMany }
{}

/// A law: two sound registries that publish the same words have the same routing table.
#[tactic(auto, using(crate::proofs::Tables::published_decides_the_table))]
pub fn published_decides_the_table()
    ensures { PublishedDecidesTheTable }
{}
