//! A channel and its two ports.
ghost use Rattle.std.specs.Prelude.{◌≡◌, ◌<◌, ◌≤◌, true, IfSome};
ghost use Rattle.pit_8254.specs.Accesses.{unset, full_count, loaded, whole_count, waiting_byte, byte_written, shown, byte_of, byte_read, after_read, latched, controlled};
ghost use Rattle.pit_8254.specs.Channels.{IsChannel};
ghost use Rattle.pit_8254.specs.Clocks.{IsCounting};

use crate::countdown::Countdown;
use crate::words::{Control, PitAccess, PitMode, Program};

/// A latched count, and whether its low byte of two was read.
#[derive(Clone, Copy)]
pub struct Latch {
    pub count: u16,
    pub second: bool,
}

/// What a channel keeps: what a control word set; the low byte that waits for the high one; the count that runs, none where the channel
/// is stopped; the latched count; and whether the next read that is not of a latched count gives the second byte of two.
#[derive(Clone, Copy)]
pub struct Channel {
    pub program: Option<Program>,
    pub low: Option<u8>,
    pub run: Option<Countdown>,
    pub latch: Option<Latch>,
    pub second: bool,
}

// A count of 0 means 65,536.
fn full_count(written: u16) -> u32
    ensures value { result ≡ full_count written }
    ensures low { 0 < result }
    ensures high { result ≤ 65536 }
{
    if written == 0 {
        65536
    } else {
        u32::from(written)
    }
}

// What a whole count does.
fn loaded(mode: PitMode, count: u32, run: Option<Countdown>) -> Option<Countdown>
    requires low { 0 < count }
    requires high { count ≤ 65536 }
    requires counting { IfSome run IsCounting }
    ensures value { result ≡ loaded mode count run }
    ensures counting { IfSome result IsCounting }
{
    if !mode.is_periodic() {
        return Some(Countdown::loaded(mode, count));
    }
    if count == 1 {
        return None;
    }
    match run {
        None => Some(Countdown::loaded(mode, count)),
        Some(run) => Some(Countdown {
            next: Some(count),
            ..run
        }),
    }
}

// The count that a byte makes whole, after the low byte that waits.
fn whole_count(access: PitAccess, low: Option<u8>, byte: u8) -> Option<u16>
    ensures { result ≡ whole_count access low byte }
{
    match (access, low) {
        (PitAccess::Low, _) => Some(u16::from(byte)),
        (PitAccess::High, _) => Some(256 * u16::from(byte)),
        (PitAccess::LowThenHigh, None) => None,
        (PitAccess::LowThenHigh, Some(low)) => Some(256 * u16::from(byte) + u16::from(low)),
    }
}

// The low byte that waits after it.
fn waiting_byte(access: PitAccess, low: Option<u8>, byte: u8) -> Option<u8>
    ensures { result ≡ waiting_byte access low byte }
{
    match (access, low) {
        (PitAccess::LowThenHigh, None) => Some(byte),
        _ => None,
    }
}

// The low or the high byte of a count.
fn byte_of(high: bool, count: u16) -> u8
    ensures { result ≡ byte_of high count }
{
    if high {
        (count / 256) as u8
    } else {
        (count % 256) as u8
    }
}

// What a channel shows of its count.
fn shown(run: Option<Countdown>) -> u16
    ensures { result ≡ shown run }
{
    match run {
        None => 0,
        Some(run) => (run.count.saturating_sub(run.elapsed) % 65536) as u16,
    }
}

impl Channel {
    /// A stopped channel that no control word has set.
    pub fn unset() -> Channel
        ensures value { result ≡ unset }
        ensures sound { IsChannel result }
    {
        Channel {
            program: None,
            low: None,
            run: None,
            latch: None,
            second: false,
        }
    }

    /// A byte of a count is written.
    pub fn write_byte(&mut self, byte: u8)
        requires { IsChannel self.old }
        ensures value { self.new ≡ byte_written self.old.program byte self.old }
        ensures sound { IsChannel self.new }
    {
        let Some(program) = self.program else {
            return;
        };
        let whole = whole_count(program.access, self.low, byte);
        self.low = waiting_byte(program.access, self.low, byte);
        if let Some(count) = whole {
            self.run = loaded(program.mode, full_count(count), self.run);
        }
    }

    /// A byte of the count is read.
    pub fn read_byte(&mut self) -> u8
        requires { IsChannel self.old }
        ensures value { result ≡ byte_read self.old.program self.old }
        ensures after { self.new ≡ after_read self.old.program self.old }
        ensures sound { IsChannel self.new }
    {
        let Some(program) = self.program else {
            return 0;
        };
        let access = program.access;
        match self.latch {
            Some(latch) => {
                let Latch { count, second } = latch;
                self.latch = if access.is_low_of_two(second) {
                    Some(Latch {
                        count,
                        second: true,
                    })
                } else {
                    None
                };
                byte_of(access.is_high(second), count)
            }
            None => {
                let byte = byte_of(access.is_high(self.second), shown(self.run));
                self.second = access.is_low_of_two(self.second);
                byte
            }
        }
    }

    // The count that the channel shows is latched.
    fn latch_count(&mut self)
        ensures { self.new ≡ latched self.old }
    {
        self.latch = Some(Latch {
            count: shown(self.run),
            second: false,
        });
    }

    /// A control word is written.
    pub fn control(&mut self, word: Control)
        requires { IsChannel self.old }
        ensures value { self.new ≡ controlled word self.old }
        ensures sound { IsChannel self.new }
    {
        match word {
            Control::Nothing => {}
            Control::Latch => self.latch_count(),
            Control::Bad => *self = Channel::unset(),
            Control::Program(program) => {
                *self = Channel {
                    program: Some(program),
                    ..Channel::unset()
                };
            }
        }
    }
}
