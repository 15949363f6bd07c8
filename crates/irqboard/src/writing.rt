//! The whole output.
ghost use Rattle.std.specs.Prelude.{◌≡◌, ℕ, ◌≤◌, List, OnOk, OnErr};
ghost use Rattle.std.specs.Io.KnownBytes.{Appends};
ghost use Rattle.io_edge.specs.Faults.{Rose};
ghost use Rattle.irqboard.specs.Output.{AppendsPart};

use io_edge::{Failed, Sink};

/// Writes all of the text; after a fault a front of it was written, and not all of it.
pub fn write_whole<K: Sink>(sink: &mut K, text: &[u8]) -> Result<(), Failed>
    ensures whole { OnOk result (Appends (K.holds sink.old) (K.holds sink.new) text.now) }
    ensures front { OnErr result (AppendsPart (K.holds sink.old) (K.holds sink.new) text.now) }
    ensures later { K.faults sink.old ≤ K.faults sink.new }
    ensures fault { OnErr result (Rose (K.faults sink.old) (K.faults sink.new)) }
    ensures kept { OnOk result (K.faults sink.new ≡ K.faults sink.old) }
{
    let mut done = 0;
    'turns: for _turn in 0..text.len() {
        if done == text.len() {
            return Ok(());
        }
        done += sink.write(&text[done..])?;
    }
    Ok(())
}
