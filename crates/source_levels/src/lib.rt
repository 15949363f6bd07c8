//! What holds the pins of a chip high.
//!
//! Contracts see `Levels` as the set of its holds, pairs of a pin and a source (`specs/Holds.antt`): a pin is high where
//! some source holds it. The code keeps one small word of flags a pin, a bit a source; what such words are to the set is
//! told in `specs/Flags.antt`.
#![tactic(auto)]

mod levels;

pub use levels::Levels;
