//! The routing table (KVM_SET_GSI_ROUTING): which pins or which message a GSI goes to, and the words in which that is
//! published.
//!
//! Contracts see `Table` as the finite map from GSIs to their targets. The rules of rows and the table that rows make stand
//! in `specs/Rows.antt`, the GSI of a pin in `specs/Pins.antt`, the rows at power-on in `specs/Defaults.antt`, the format of
//! words in `specs/Words.antt`. Under the rules a table is just the set of its rows: `table_has_its_rows`. The code keeps a
//! word a GSI and a word a pin, and room for the words of the next table; that these stand for rows is told in
//! `specs/Standing.antt` and `specs/Tables.antt`.
#![tactic(auto)]

mod filling;
mod laws;
mod rows;
mod table;
mod words;

pub use filling::refusal_of;
pub use laws::table_has_its_rows;
pub use table::Table;
pub use words::{decode, encode};
