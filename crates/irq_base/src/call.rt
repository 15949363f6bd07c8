//! Who asks a board, and what.
ghost use Rattle.std.specs.Prelude.{◌≡◌};
ghost use Rattle.irq_base.specs.Callers.{is_allowed, is_of_processor};

use crate::limits::MAX_DEVICES;
use crate::lists::Rows;
use crate::shape::Shape;
use std::fmt;

/// Who asks: a device of the monitor, numbered below [`MAX_DEVICES`], or a processor of the guest.
#[derive(Clone, Copy, Debug, PartialEq, Eq)]
pub enum Caller {
    Device(u16),
    Cpu(u16),
}

/// The two spaces of guest addresses (KVM_IOEVENTFD: programmed I/O or memory).
#[derive(Clone, Copy, Debug, PartialEq, Eq)]
pub enum Space {
    Port,
    Memory,
}

/// A row of the routing table (KVM_SET_GSI_ROUTING): the GSI goes to a pin of the 8259A pair (0 to 15, the slave's from 8
/// on), to a pin of the I/O APIC (0 to 23), or to a message.
#[derive(Clone, Copy, Debug, PartialEq, Eq)]
pub enum Row {
    Pic {
        gsi: u16,
        pin: u8,
    },
    Ioapic {
        gsi: u16,
        pin: u8,
    },
    Msi {
        gsi: u16,
        address: u64,
        payload: u32,
    },
}

/// What is asked of a board. The last seven are for processors alone.
#[derive(Drop)]
pub enum Call {
    /// A line source of a GSI goes high or low (KVM_IRQ_LINE); lines are numbered 0 to 7.
    Line {
        gsi: u16,
        line: u8,
        high: bool,
    },
    /// A message is sent (KVM_SIGNAL_MSI).
    Msi {
        address: u64,
        payload: u32,
    },
    /// A count is added to a counter (eventfd(2), write); where the counter is the trigger of an irqfd, that injects.
    Write {
        counter: u16,
        n: u64,
    },
    /// A counter is read and set to 0 (eventfd(2), read).
    Take {
        counter: u16,
    },
    /// An irqfd is made, with a resample counter where one is given (KVM_IRQFD).
    Assign {
        trigger: u16,
        gsi: u16,
        resample: Option<u16>,
    },
    /// An irqfd ends (KVM_IRQFD, deassign).
    Deassign {
        trigger: u16,
        gsi: u16,
    },
    /// The routing table is replaced (KVM_SET_GSI_ROUTING).
    Reroute {
        rows: Rows,
    },
    /// A counter is bound to guest writes at an address (KVM_IOEVENTFD); length 0 stands for any length.
    Attach {
        space: Space,
        address: u64,
        len: u8,
        counter: u16,
        want: Option<u64>,
    },
    /// Such a binding ends.
    Detach {
        space: Space,
        address: u64,
        len: u8,
        counter: u16,
        want: Option<u64>,
    },
    /// A counter is signalled at each acknowledge of a GSI (an acknowledge notifier).
    Watch {
        counter: u16,
        gsi: u16,
    },
    /// Such a notifier ends.
    Unwatch {
        counter: u16,
        gsi: u16,
    },
    /// A tick falls.
    Tick,
    /// Tick reinjection is turned on or off.
    TickMode {
        reinject: bool,
    },
    /// A processor writes to a port; the value has the access's length in bytes.
    PortOut {
        port: u16,
        len: u8,
        value: u32,
    },
    /// A processor reads a port.
    PortIn {
        port: u16,
        len: u8,
    },
    /// A processor writes to memory.
    Store {
        address: u64,
        len: u8,
        value: u64,
    },
    /// A processor reads memory.
    Load {
        address: u64,
        len: u8,
    },
    /// A processor asks for its next interrupt.
    Ack,
    /// Processor 0 makes an acknowledge cycle of the 8259A pair.
    Inta,
    /// A processor ends its interrupt of highest priority.
    Eoi,
}

impl Call {
    /// Whether the caller may ask this of a board of that shape: a device below [`MAX_DEVICES`] or a processor of the board, the
    /// last seven calls from a processor alone, and `Inta` from processor 0.
    pub fn allowed(&self, caller: Caller, shape: &Shape) -> bool
        ensures { result ≡ is_allowed caller self.now shape.now }
    {
        match caller {
            Caller::Device(d) => d < MAX_DEVICES && !self.is_of_processor(),
            Caller::Cpu(n) => {
                let is_there = n < shape.cpus;
                match self {
                    Call::Inta => is_there && n == 0,
                    _ => is_there,
                }
            }
        }
    }

    // Whether only a processor may ask this.
    fn is_of_processor(&self) -> bool
        ensures { result ≡ is_of_processor self.now }
    {
        matches!(
            self,
            Call::PortOut { .. }
                | Call::PortIn { .. }
                | Call::Store { .. }
                | Call::Load { .. }
                | Call::Ack
                | Call::Inta
                | Call::Eoi
        )
    }
}

impl fmt::Display for Caller {
    ghost use Rattle.irq_base.specs.Text.{caller_text};
    ghost use Rattle.std.specs.Prelude.{Some};

    ghost output = { λ c. Some (caller_text c) };

    fn fmt<W: fmt::Write>(&self, f: &mut fmt::Formatter<W>) -> fmt::Result {
        match self {
            Caller::Device(d) => write!(f, "dev{d}"),
            Caller::Cpu(n) => write!(f, "cpu{n}"),
        }
    }
}
