//! The types that all parts of a board speak: callers and their calls, routing rows, messages, statuses, refusals,
//! replies, events and histories, with the text of each.
//!
//! Numbers keep their field's type (a GSI is a `u16`, a pin a `u8`, an address a `u64`); what is in range is a matter of
//! the board, which names a refusal.
#![tactic(auto)]

mod call;
mod event;
mod face;
mod fault;
mod limits;
mod lists;
mod message;
mod refusal;
mod reply;
mod shape;
mod status;
mod tally;

pub use call::{Call, Caller, Row, Space};
pub use event::{Event, Events, Pin, tell};
pub use face::{Face, Stops};
pub use fault::LineCause;
pub use irq_bits::MAX_CPUS;
pub use limits::MAX_DEVICES;
pub use lists::{Bytes, Entry, EventList, History, Items, NoMemory, Rows};
pub use message::{DestView, Message, Mode, MsiWord, Source, Targets};
pub use refusal::Refusal;
pub use reply::{Done, Reply, Spent};
pub use shape::{Part, Shape};
pub use status::{Cause, Status};
pub use tally::Tally;
