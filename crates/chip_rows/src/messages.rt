//! Messages: what an address and a payload stand for, and which processors a destination is for.
//!
//! Expected values are those of the message formats and destination modes (SDM volume 3, message signalled interrupts,
//! determining IPI destination).

use dest_match::{better, matches};
use irq_base::{DestView, Message, Mode};
use msi_decode::{BadMsi, decode};
use std::test::Fail;

// Destination in address bits 19 to 12, hint in bit 3, logical in bit 2; vector in payload bits 7 to 0, mode in bits 10 to
// 8, level in bit 15. The other bits below bit 20 of the address, and of the payload, have no effect.
#[test]
fn decoding(rt: HostRuntime) -> Result<(), Fail> {
    let words = [
        (
            0xfee0_0000,
            0x0000_0041,
            Mode::Fixed,
            false,
            0x00,
            0x41,
            false,
        ),
        (
            0xfee0_700c,
            0x0000_0062,
            Mode::Lowest,
            true,
            0x07,
            0x62,
            false,
        ),
        (
            0xfee0_7008,
            0x0000_0062,
            Mode::Fixed,
            false,
            0x07,
            0x62,
            false,
        ),
        (
            0xfee0_7004,
            0x0000_0062,
            Mode::Fixed,
            true,
            0x07,
            0x62,
            false,
        ),
        (
            0xfee0_7000,
            0x0000_0162,
            Mode::Lowest,
            false,
            0x07,
            0x62,
            false,
        ),
        (
            0xfee0_700c,
            0x0000_8062,
            Mode::Lowest,
            true,
            0x07,
            0x62,
            true,
        ),
        (0xfee0_700c, 0x0000_8462, Mode::Nmi, true, 0x07, 0x62, false),
        (
            0xfeef_f000,
            0x0000_c0ff,
            Mode::Fixed,
            false,
            0xff,
            0xff,
            true,
        ),
        (0xfee0_100c, 0x0000_8230, Mode::Smi, true, 0x01, 0x30, true),
        (
            0xfee0_1000,
            0x0000_0330,
            Mode::Reserved,
            false,
            0x01,
            0x30,
            false,
        ),
        (
            0xfee0_1000,
            0x0000_0530,
            Mode::Init,
            false,
            0x01,
            0x30,
            false,
        ),
        (
            0xfee0_1000,
            0x0000_0630,
            Mode::Reserved,
            false,
            0x01,
            0x30,
            false,
        ),
        (
            0xfee8_0000,
            0x0000_0730,
            Mode::ExtInt,
            false,
            0x80,
            0x30,
            false,
        ),
        (
            0xfee0_0ff3,
            0xffff_7841,
            Mode::Fixed,
            false,
            0x00,
            0x41,
            false,
        ),
    ];
    for (address, payload, mode, logical, dest, vector, level) in words {
        let message = Message {
            mode,
            logical,
            dest,
            vector,
            level,
        };
        assert!(rt; decode(address, payload) == Ok(message));
    }
    let bad = [
        0x1_fee0_0000,
        0xfed0_0000,
        0xfef0_0000,
        0,
        0xffff_ffff_fee0_0000,
    ];
    for address in bad {
        assert!(rt; decode(address, 0x41) == Err(BadMsi));
    }
    Ok(())
}

// A physical destination is a number, or FFh for all. A logical one shares a bit with LDR bits 31 to 24 in the flat model;
// in the cluster model high nibbles are equal and low nibbles share a bit; FFh is for all in each model, and what is above
// FFh is for none.
#[test]
fn destinations(rt: HostRuntime) -> Result<(), Fail> {
    let flat = (2, 0x0400_0000, 0xffff_ffff);
    let cluster = (2, 0x2100_0000, 0x0fff_ffff);
    let other = (2, 0x0100_0000, 0x5fff_ffff);
    let unset = (0, 0x0000_0000, 0xffff_ffff);
    let rows = [
        (flat, false, 0x02, true),
        (flat, false, 0xff, true),
        (flat, false, 0x03, false),
        (flat, false, 0x102, false),
        (flat, true, 0x06, true),
        (flat, true, 0x08, false),
        (flat, true, 0xff, true),
        (flat, true, 0x104, false),
        (flat, true, 0x1ff, false),
        (flat, true, 0x00, false),
        (cluster, true, 0x11, false),
        (cluster, true, 0x21, true),
        (cluster, true, 0x23, true),
        (cluster, true, 0x22, false),
        (cluster, true, 0xff, true),
        (cluster, true, 0x121, false),
        (cluster, true, 0x20, false),
        (cluster, false, 0x02, true),
        (cluster, false, 0x21, false),
        (other, true, 0x01, false),
        (other, true, 0xff, true),
        (other, false, 0x02, true),
        (unset, true, 0xff, true),
        (unset, true, 0x01, false),
        (unset, false, 0x00, true),
    ];
    for ((number, ldr, dfr), logical, dest, is_for) in rows {
        let view = DestView {
            number,
            enabled: true,
            ldr,
            dfr,
            ppr: 0,
        };
        let message = Message {
            mode: Mode::Fixed,
            logical,
            dest,
            vector: 0x41,
            level: false,
        };
        assert!(rt; matches(&view, &message) == is_for);
    }
    Ok(())
}

// The lower processor priority is the better; on a tie neither is.
#[test]
fn priorities(rt: HostRuntime) -> Result<(), Fail> {
    let at = |ppr: u8| DestView {
        number: 0,
        enabled: true,
        ldr: 0,
        dfr: 0xffff_ffff,
        ppr,
    };
    for (a, b, is_better) in [
        (0x20, 0x30, true),
        (0x30, 0x20, false),
        (0x20, 0x20, false),
        (0, 0xff, true),
    ] {
        assert!(rt; better(&at(a), &at(b)) == is_better);
    }
    Ok(())
}
