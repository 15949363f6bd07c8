//! What a signal answers.
ghost use Rattle.std.specs.Prelude.{◌≡◌, if◌then◌else◌};

use irq_bits::CpuSet;
use std::fmt;

/// Why a signal had no effect.
#[derive(Clone, Copy, Debug, PartialEq, Eq)]
pub enum Cause {
    Masked,
    Unrouted,
    NoProcessor,
    BadVector,
    Mode,
}

/// What came of a signal, after KVM_IRQ_LINE_STATUS.
#[derive(Clone, Copy, Debug, PartialEq, Eq)]
pub enum Status {
    /// Some target newly took the request: these processors newly, these had it already; and whether the 8259A newly
    /// took it.
    Delivered {
        new: CpuSet,
        stood: CpuSet,
        pic: bool,
    },
    /// No target newly took the request and some had it already, these processors among them.
    Coalesced {
        stood: CpuSet,
    },
    Ignored(Cause),
    /// The source lets the line go.
    Lowered,
}

// 1 for true and 0 for false.
fn digit_of(flag: bool) -> u8
    ensures { result ≡ (if flag then 1 else 0) }
{
    if flag { 1 } else { 0 }
}

impl fmt::Display for Cause {
    ghost use Rattle.irq_base.specs.Text.{cause_text};
    ghost use Rattle.std.specs.Prelude.{Some};

    ghost output = { λ c. Some (cause_text c) };

    fn fmt<W: fmt::Write>(&self, f: &mut fmt::Formatter<W>) -> fmt::Result {
        match self {
            Cause::Masked => write!(f, "masked"),
            Cause::Unrouted => write!(f, "unrouted"),
            Cause::NoProcessor => write!(f, "no-processor"),
            Cause::BadVector => write!(f, "bad-vector"),
            Cause::Mode => write!(f, "mode"),
        }
    }
}

impl fmt::Display for Status {
    ghost use Rattle.irq_base.specs.Text.{status_text};
    ghost use Rattle.std.specs.Prelude.{Some};

    ghost output = { λ s. Some (status_text s) };

    fn fmt<W: fmt::Write>(&self, f: &mut fmt::Formatter<W>) -> fmt::Result {
        match self {
            Status::Delivered { new, stood, pic } => {
                let new = new.bits();
                let stood = stood.bits();
                let pic = digit_of(*pic);
                write!(f, "delivered new={new:x} stood={stood:x} pic={pic}")
            }
            Status::Coalesced { stood } => {
                let stood = stood.bits();
                write!(f, "coalesced stood={stood:x}")
            }
            Status::Ignored(cause) => write!(f, "ignored {cause}"),
            Status::Lowered => write!(f, "lowered"),
        }
    }
}
