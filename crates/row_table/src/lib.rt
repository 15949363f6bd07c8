//! Tables of calls on boards, as text, and what the boards answer to them.
//!
//! A table has a line a call, in the words of a script: the caller, the call, an arrow and the reply. Behind it stands a line for
//! each event of the call, in order, in the words of a transcript:
//!
//!     cpus 1
//!     dev0 watch 3 8 -> done
//!     cpu0 out 00a0 1 20 -> done
//!     + acked pic 8 gsi 8
//!     + watched 3
//!
//! A line `cpus N` begins a new board; the other headers of a script may stand behind it. A call that a limit of the board bars
//! is answered `spent calls N` or `spent publications N`.
//!
//! Two more lines ask nothing, and tell what the board is: `cpu0 eoi reaches ioapic lapic0` which parts the call would reach, in
//! the order registry, counters, tick, pic, ioapic, lapic0, lapic1 and so on, or `nothing`; and `cpu0 due vector 41` what an
//! acknowledge would give, or `nmi`, `extint` or `nothing`.
//!
//! Empty lines and lines that begin with `#` are passed over, and spaces around a line don't count.
#![tactic(auto)]

mod difference;
mod player;
mod words;

pub use difference::{board_after, fault_of};
