//! The whole input.
ghost use Rattle.std.specs.Prelude.{◌≡◌, ◌≢◌, ℕ, ◌≤◌, List, length, IfOk, IfErr, Err};
ghost use Rattle.std.specs.Io.KnownBytes.{Consumes, IsAtEnd};
ghost use Rattle.io_edge.specs.Faults.{Rose};
ghost use Rattle.irqboard.specs.Input.{StopsRightly};

use io_edge::Source;
use std::alloc::Global;

/// The most bytes that an input may have.
pub const LIMIT: usize = 16_777_216;

/// Why the input was not read to its end.
#[derive(Clone, Copy, Debug, PartialEq, Eq)]
pub enum Stop {
    /// The source failed.
    Fault,
    /// Want of memory.
    Memory,
    /// More bytes than the limit were read: that many.
    TooLong(u64),
}

/// Reads to the end of the input, or until it is known to be longer than the limit. Each byte is copied once.
pub fn read_whole<S: Source>(alloc: Global, source: &mut S) -> Result<Vec<u8>, Stop>
    ensures whole { IfOk result (λ v. Consumes (S.left source.old) (S.left source.new) v.items) }
    ensures end { IfOk result (λ _. IsAtEnd (S.left source.new)) }
    ensures within { IfOk result (λ v. length v.items ≤ LIMIT) }
    ensures stop { IfErr result (StopsRightly (S.left source.old) (S.left source.new)) }
    ensures later { S.faults source.old ≤ S.faults source.new }
    ensures fault { result ≡ Err Stop.Fault → Rose (S.faults source.old) (S.faults source.new) }
    ensures kept { result ≢ Err Stop.Fault → S.faults source.new ≡ S.faults source.old }
{
    let mut bytes = Vec::new(alloc);
    let mut room = [0u8; 4096];
    'turns: for _turn in 0..LIMIT + 1 {
        match source.read(&mut room) {
            Err(_) => return Err(Stop::Fault),
            Ok(0) => return Ok(bytes),
            Ok(count) => {
                let total = bytes.len() + count;
                if total > LIMIT {
                    return Err(Stop::TooLong(total as u64));
                }
                if bytes.extend_from_slice(&room[..count]).is_err() {
                    return Err(Stop::Memory);
                }
            }
        }
    }
    unreachable!()
}
