//! Channel 0 of an 8254.
ghost use Rattle.std.specs.Prelude.{◌≡◌, ◌≤◌, true, List, IfErr, IfOk, IfSome, IsOk, OnOk};
ghost use Rattle.face_asks.specs.Asks.{StopTold};
ghost use Rattle.irq_base.specs.declared.call.Call.TheVariants.{Tick};
ghost use Rattle.pit_8254.specs.Accesses.{after_port_read, is_pit_port, port_read, port_written, unset};
ghost use Rattle.pit_8254.specs.Asks.{is_device, limit_of};
ghost use Rattle.pit_8254.specs.Clocks.{channel_after, channel_ticks, StandsBefore};
ghost use Rattle.pit_8254.specs.Operations.{Advances, Lead, Operation, TicksOnce};

use crate::channel::Channel;
use crate::ticking::PitSpent;
use crate::words::Control;
use irq_base::{Events, Face};
use std::marker::Model;

/// The port of the counts of channel 0.
pub const CHANNEL_PORT: u16 = 0x40;

/// The port of the control words.
pub const CONTROL_PORT: u16 = 0x43;

/// Channel 0 of an 8254, which ticks on a board. It is seen as what the channel keeps.
#[derive(Drop)]
pub struct Pit {
    channel: Channel,
}

impl Model for Pit {
    ghost use Rattle.pit_8254.specs.Channels.{IsChannel};
    ghost use Rattle.pit_8254.specs.declared.channel.Channel.{Channel as Kept};

    ghost Value = { Kept };

    ghost view = { λ p. p.channel };

    ghost invariant = { λ p. IsChannel p.channel };
}

impl Pit {
    /// A stopped channel. Counts do nothing before the first control word that sets it.
    pub fn power_on() -> Pit
        ensures { result ≡ unset }
    {
        Pit {
            channel: Channel::unset(),
        }
    }

    /// The guest writes a byte to port 40h, a byte of a count, or to port 43h, a control word.
    pub fn write(&mut self, port: u16, value: u8)
        requires { is_pit_port port ≡ true }
        ensures { self.new ≡ port_written port value self.old }
    {
        if port == CONTROL_PORT {
            self.channel.control(Control::of(value));
        } else {
            self.channel.write_byte(value);
        }
    }

    /// The guest reads a byte of port 40h, which gives a byte of the latched count or of the count as it runs, or of port 43h, which
    /// reads 0.
    pub fn read(&mut self, port: u16) -> u8
        requires { is_pit_port port ≡ true }
        ensures value { result ≡ port_read port self.old }
        ensures after { self.new ≡ after_port_read port self.old }
    {
        if port == CONTROL_PORT {
            0
        } else {
            self.channel.read_byte()
        }
    }

    /// So many clocks go by, at most 10,000,000: each tick that falls is asked of the board by the face of a device. It answers how many
    /// there were. Where a limit of the board bars one, the channel stands one clock before it. Afterwards `events` has those of the last
    /// tick that was asked, none where it was barred; where no tick falls it stays.
    pub fn advance<F: Face>(
        &mut self,
        clocks: u64,
        face: &mut F,
        events: &mut Events,
    ) -> Result<u64, PitSpent>
        requires clocks { clocks ≤ 10000000 }
        requires device { is_device (F.who face.old) ≡ true }

        ensures after { OnOk result (self.new ≡ channel_after clocks self.old) }
        ensures ticks { IfOk result (λ ticks. ticks ≡ channel_ticks clocks self.old) }
        ensures stands { IfErr result (λ stop. StandsBefore clocks stop.ticks self.old self.new) }

        // What the face gained: the ticks that were answered, each once; and the events of the last ask.
        ensures asked { Advances F.Face clocks result face.old face.new self.old self.new events.old.items events.new.items }
        ensures stops { StopTold F.Face (limit_of result) face.old face.new }
        ensures barred { IfErr result (λ stop. F.barred face.new Tick stop.spent) }

        // Where as many calls are left as there are ticks, none is barred.
        ensures answers { IfSome (F.left face.old) (λ left. channel_ticks clocks self.old ≤ left → IsOk result) }
    {
        self.channel.advance(clocks, face, events)
    }

    /// Nothing is done. Over every list of operations since power-on, made singly, the calls that were asked and answered are ticks, as many
    /// as the definition has over the same writes, reads and clocks that went by.
    pub fn ticks_once(&self)
        ensures once { (operations : List Operation) → Lead unset operations self.now → TicksOnce operations self.now }
    {}
}
