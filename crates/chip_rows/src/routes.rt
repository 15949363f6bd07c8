//! The routing table at power-on and with other rows, published words, and the sources of pins.
use irq_base::{Items, MsiWord, NoMemory, Pin, Row, Rows, Source, Targets};
use route_table::{Table, decode, encode};
use source_levels::Levels;
use std::alloc::Global;
use std::test::Fail;

fn pic(gsi: u16, pin: u8) -> Row {
    Row::Pic { gsi, pin }
}

fn msi(gsi: u16, address: u64) -> Row {
    Row::Msi {
        gsi,
        address,
        payload: 0x41,
    }
}

fn rows_of(alloc: Global, list: &[Row]) -> Result<Rows, NoMemory> {
    let mut rows = Items::empty(alloc);
    for row in list {
        rows.push(*row)?;
    }
    Ok(rows)
}

fn pins(pic: Option<u8>, ioapic: Option<u8>) -> Targets {
    Targets {
        pic,
        ioapic,
        msi: None,
    }
}

fn message(address: u64, payload: u32) -> Targets {
    Targets {
        pic: None,
        ioapic: None,
        msi: Some(MsiWord { address, payload }),
    }
}

// The table at power-on with these rows in the place of its own.
fn replaced(alloc: Global, list: &[Row]) -> Result<Table, Fail> {
    let mut table = Table::power_on(alloc)?;
    let rows = rows_of(alloc, list)?;
    match table.replace(&rows) {
        Ok(()) => Ok(table),
        Err(_) => Err(Fail::from("refused")),
    }
}

// Where a GSI goes, if there is one of the number.
fn targets(table: &Table, gsi: u16) -> Option<Targets> {
    if gsi < 4096 {
        Some(table.targets(gsi))
    } else {
        None
    }
}

// The GSIs of the pins of a number.
fn owners(table: &Table, pin: u8) -> (Option<u16>, Option<u16>) {
    (table.gsi_of(Pin::Pic(pin)), table.gsi_of(Pin::Ioapic(pin)))
}

// GSI n below 16 has both pins n, GSI 16 to 23 the pin of the I/O APIC, and 24 none.
#[test]
fn routes_at_power_on(rt: HostRuntime) -> Result<(), Fail> {
    let table = Table::power_on(rt.alloc())?;
    for n in 0..25u8 {
        let gsi = u16::from(n);
        let (wanted, pins) = match n {
            0..=15 => (pins(Some(n), Some(n)), (Some(gsi), Some(gsi))),
            16..=23 => (pins(None, Some(n)), (None, Some(gsi))),
            _ => (pins(None, None), (None, None)),
        };
        assert!(rt;
            targets(&table, gsi) == Some(wanted) && owners(&table, n) == pins,
            "{n}"
        );
    }
    Ok(())
}

// Where a GSI goes, and the GSIs of the pins of a number.
type Shown = (Option<Targets>, (Option<u16>, Option<u16>));

fn shown(table: &Table, gsi: u16, pin: u8) -> Shown {
    (targets(table, gsi), owners(table, pin))
}

// What a table of one row shows.
fn by_one_row(alloc: Global) -> Result<[Shown; 2], Fail> {
    let one = replaced(alloc, &[pic(5, 6)])?;
    Ok([shown(&one, 5, 6), shown(&one, 6, 5)])
}

// A table of 4,096 rows.
fn messages(alloc: Global) -> Result<Table, Fail> {
    let mut list = Vec::new(alloc);
    for gsi in 0..4096 {
        list.push(msi(gsi, 0xfee0_0000))?;
    }
    replaced(alloc, list.as_slice())
}

fn copy_of(alloc: Global, table: &Table) -> Result<Table, Fail> {
    let mut copy = Table::power_on(alloc)?;
    copy.copy_from(table);
    Ok(copy)
}

// Whether the table is replaced by no rows.
fn is_cleared(alloc: Global, table: &mut Table) -> Result<bool, Fail> {
    let none = rows_of(alloc, &[])?;
    Ok(table.replace(&none) == Ok(()))
}

// What the copy of such a table shows, and then the table itself, which is cleared.
fn by_messages(alloc: Global) -> Result<[Shown; 3], Fail> {
    let mut table = messages(alloc)?;
    let copy = copy_of(alloc, &table)?;
    if !is_cleared(alloc, &mut table)? {
        return Err(Fail::from("refused"));
    }
    Ok([
        shown(&copy, 0, 0),
        shown(&copy, 4095, 23),
        shown(&table, 4095, 23),
    ])
}

// One row alone; 4,096 rows, a copy of their table, and then none.
#[test]
fn routes_that_are_replaced(rt: HostRuntime) -> Result<(), Fail> {
    let nobody = (None, None);
    let none = Some(pins(None, None));
    let one = Some(pins(Some(6), None));
    assert!(rt; by_one_row(rt.alloc())? == [(one, (Some(5), None)), (none, nobody)]);
    let word = Some(message(0xfee0_0000, 0x41));
    assert!(rt; by_messages(rt.alloc())? == [(word, nobody), (word, nobody), (none, nobody)]);
    Ok(())
}

// Words by hand, both ways: 1 for pins, 2 for a message; 4 and 8 times the number for a pin of the 8259A, 128 and 256 times
// the number for one of the I/O APIC; 4 times the low 20 bits of the address and 2^22 times the payload; 2^63 for the mark.
#[test]
fn words(rt: HostRuntime) -> Result<(), Fail> {
    for (targets, marked, word) in [
        (pins(None, None), false, 0),
        (pins(None, None), true, 0x8000_0000_0000_0000),
        (pins(Some(5), Some(5)), false, 0x5ad),
        (pins(Some(15), Some(23)), false, 0x17fd),
        (pins(Some(0), None), false, 5),
        (pins(None, Some(16)), true, 0x8000_0000_0000_1081),
        (message(0xfee0_1000, 0x4041), false, 0x10_1040_4002),
        (
            message(0xfeef_ffff, 0xffff_ffff),
            false,
            0x003f_ffff_ffff_fffe,
        ),
        (message(0xfee0_0000, 0), true, 0x8000_0000_0000_0002),
    ] {
        assert_eq!(rt; encode(&targets, marked), word);
        assert_eq!(rt; decode(word), (targets, marked));
    }
    for word in [
        1,
        3,
        4,
        9,
        0x1881,
        0x25ad,
        0x0040_0000_0000_0002,
        0x8000_0000_0000_0001,
        0x4000_0000_0000_0000,
        0xffff_ffff_ffff_ffff,
    ] {
        assert_eq!(rt; decode(word), (pins(None, None), false), "at {word}");
    }
    Ok(())
}

// What the levels of two pins are.
fn highs(levels: &Levels<24>) -> [bool; 4] {
    [
        levels.high(0),
        levels.high(10),
        levels.high(11),
        levels.high(23),
    ]
}

// A pin stays high while one source is left, and is forgotten at once; a copy stays as it was copied.
#[test]
fn levels(rt: HostRuntime) {
    let mut levels: Levels<24> = Levels::none();
    levels.raise(10, Source::Line(0));
    levels.raise(10, Source::Line(7));
    levels.lower(10, Source::Line(0));
    let first = highs(&levels);
    levels.lower(10, Source::Line(7));
    let second = highs(&levels);
    levels.raise(23, Source::Resample);
    levels.raise(23, Source::Tick);
    levels.raise(0, Source::Pulse);
    let mut copy: Levels<24> = Levels::none();
    copy.copy_from(&levels);
    levels.forget(23);
    assert!(rt; first == [false, true, false, false] && second == [false; 4]);
    assert!(rt; highs(&levels) == [true, false, false, false]);
    assert!(rt; highs(&copy) == [true, false, false, true]);
}
