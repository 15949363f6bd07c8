//! Sources and sinks of bytes, which count their faults.
ghost use Rattle.std.specs.Prelude.{◌≡◌, ℕ, List, ◌<◌, ◌≤◌, length, IfOk, OnOk, OnErr};
ghost use Rattle.std.specs.declared.option.Option.{Option};
ghost use Rattle.std.specs.Io.{ReadsAtMost, WritesAtMost};
ghost use Rattle.std.specs.Io.KnownBytes.{ReadConsumes, WriteAppends};
ghost use Rattle.io_edge.specs.Faults.{Rose, StaysTold};

/// A read or a write failed, and moved no byte.
#[derive(Clone, Copy, Debug, PartialEq, Eq)]
pub struct Failed;

/// Where bytes come from, as with read(2).
///
/// A source has two meanings: `left`, the bytes not yet read, where the source tells them, and `faults`, how often a read has
/// failed, a number that never falls.
pub trait Source {
    ghost left: { Self → Option (List ℕ) };

    ghost faults: { Self → ℕ };

    /// Puts the next bytes at the front of the room and answers how many, at most the room's length. The bytes that are told
    /// lose them. 0 for room that is not empty is the end of input. `Failed` comes only where `faults` rose, and takes no byte;
    /// any other answer leaves `faults`.
    fn read(&mut self, room: &mut [u8]) -> Result<usize, Failed>
        ensures bound { ReadsAtMost result room.new }
        ensures bytes { ReadConsumes (left self.old) (left self.new) result room.new }
        ensures told { StaysTold (left self.old) (left self.new) }
        ensures later { faults self.old ≤ faults self.new }
        ensures kept { OnOk result (faults self.new ≡ faults self.old) }
        ensures cause { OnErr result (Rose (faults self.old) (faults self.new)) };
}

/// Where bytes go, as with write(2).
///
/// A sink has two meanings: `holds`, the bytes taken so far, where the sink tells them, and `faults`, how often a write has
/// failed, a number that never falls.
pub trait Sink {
    ghost holds: { Self → Option (List ℕ) };

    ghost faults: { Self → ℕ };

    /// Takes bytes from the front of the piece and answers how many: at most its length, and at least 1 where it is not empty.
    /// The bytes that are told gain them. `Failed` comes only where `faults` rose, and takes no byte; any other answer leaves
    /// `faults`.
    fn write(&mut self, piece: &[u8]) -> Result<usize, Failed>
        ensures bound { WritesAtMost result piece.now }
        ensures some { 0 < length piece.now → IfOk result (λ n. 0 < n) }
        ensures bytes { WriteAppends (holds self.old) (holds self.new) result piece.now }
        ensures told { StaysTold (holds self.old) (holds self.new) }
        ensures later { faults self.old ≤ faults self.new }
        ensures kept { OnOk result (faults self.new ≡ faults self.old) }
        ensures cause { OnErr result (Rose (faults self.old) (faults self.new)) };
}
