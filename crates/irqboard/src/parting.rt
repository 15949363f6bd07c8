//! A script and a transcript behind it, in one input.
ghost use Rattle.std.specs.Prelude.{◌≡◌, ℕ, ◌+◌, ◌-◌, ◌<◌, ◌≤◌, ◌^◌, length};
ghost use Rattle.script_text.specs.Words.{ended_lines};
ghost use Rattle.irqboard.specs.Parting.{is_end_line, lines_to_end, bytes_to_end, script_part, transcript_part, transcript_line};

use script_text::cut;

// Whether a line is the end of a script.
fn is_end_line(line: &[u8]) -> bool
    ensures { result ≡ is_end_line line.now }
{
    line == b"end".as_slice()
}

// How many bytes the lines up to and with the first line `end` have, all where there is none; and the number of the line behind them.
#[tactic(auto, using(crate::proofs::EndLines::parting_rules))]
fn to_end(bytes: &[u8]) -> (usize, u32)
    requires { length bytes.now < 2 ^ 32 - 1 }
    ensures size { result.0 ≡ bytes_to_end (length bytes.now) (ended_lines bytes.now) }
    ensures number { result.1 ≡ transcript_line bytes.now }
    ensures within { result.0 ≤ length bytes.now }
    ensures few { result.1 ≤ result.0 + 1 }
{
    let mut rest = bytes;
    let mut number = 1;
    while let Some((line, behind)) = cut(rest, b'\n') {
        number += 1;
        rest = behind;
        if is_end_line(line) {
            return (bytes.len() - rest.len(), number);
        }
    }
    (bytes.len(), number)
}

/// The script in an input, the transcript behind it, and the number of the transcript's first line.
pub fn parted(bytes: &[u8]) -> (&[u8], &[u8], u32)
    requires { length bytes.now < 2 ^ 32 - 1 }
    ensures script { result.0.now ≡ script_part bytes.now }
    ensures transcript { result.1.now ≡ transcript_part bytes.now }
    ensures line { result.2 ≡ transcript_line bytes.now }
    ensures shorter { length result.0.now ≤ length bytes.now }
    ensures numbered { result.2 + length result.1.now < 2 ^ 32 }
{
    let (size, line) = to_end(bytes);
    let (script, transcript) = bytes.split_at(size);
    (script, transcript, line)
}
