//! The six ports.
ghost use Rattle.std.specs.Prelude.{◌≡◌, IsTrue};
ghost use Rattle.pic_8259a.specs.Pair.{port_rows, port_of, is_port, PortsStartAsTold};
ghost use Rattle.reg_table.specs.Rows.{ResetsAreReadable};

use reg_table::{RegRow, RegTable};

/// The pins 3 to 7 of the master can be level-triggered.
pub const MASTER_ELCR: u8 = 0xf8;

/// The pins 9 to 12, 14 and 15 can be level-triggered: on the slave all but its levels 0 and 5.
pub const SLAVE_ELCR: u8 = 0xde;

/// A port of the pair.
#[derive(Clone, Copy)]
pub enum Port {
    MasterEven,
    MasterOdd,
    SlaveEven,
    SlaveOdd,
    MasterElcr,
    SlaveElcr,
}

/// The rows of the ports.
fn ports() -> RegTable<6>
    ensures { result ≡ port_rows }
{
    macro_rules! port {
        ($offset:expr, $writable:expr, $reset:expr) => {
            RegRow {
                offset: $offset,
                readable: 0xff,
                writable: $writable as u32,
                reset: $reset,
            }
        };
    }
    RegTable::of([
        port!(0x20, 0xff, 0),
        port!(0x21, 0xff, 0xff),
        port!(0xa0, 0xff, 0),
        port!(0xa1, 0xff, 0xff),
        port!(0x4d0, MASTER_ELCR, 0),
        port!(0x4d1, SLAVE_ELCR, 0),
    ])
}

/// The port of an address, which is one of the six.
pub fn port_at(port: u16) -> Port
    requires { IsTrue (is_port port) }
    ensures { result ≡ port_of port }
{
    match ports().find(port) {
        Some(0) => Port::MasterEven,
        Some(1) => Port::MasterOdd,
        Some(2) => Port::SlaveEven,
        Some(3) => Port::SlaveOdd,
        Some(4) => Port::MasterElcr,
        _ => Port::SlaveElcr,
    }
}

/// A law: what each port reads at power-on is the value of its row in the table, whose bits can all be read.
#[tactic(auto, using(crate::proofs::PowerOn::ports_start_as_told))]
pub fn ports_start_as_told()
    ensures values { PortsStartAsTold }
    ensures readable { ResetsAreReadable port_rows }
{}
