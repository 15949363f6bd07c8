// Words that are read before a publication, after a lost one and after a won one.
use crate::bank_machine::{Change, Registry};
use crate::bank_publishing::{Refused, opened, pass, put, put_once};
use crate::bank_reading::{Words, words_read};
use crate::bank_registries::{Wanted, registry};
use irq_base::Row;
use std::alloc::Global;
use std::test::Fail;
use turn_book::{Front, Took};

// GSI 1 has a pin of each chip and a resample counter, GSI 20 a watch, GSI 4,095 is a message that trigger 0 injects; ticks go
// to GSI 2.
fn first(alloc: Global) -> Result<Registry, Fail> {
    let rows = [
        Row::Pic { gsi: 1, pin: 1 },
        Row::Ioapic { gsi: 1, pin: 1 },
        Row::Ioapic { gsi: 20, pin: 23 },
        Row::Msi {
            gsi: 4095,
            address: 0xfee0_1000,
            payload: 0x41,
        },
    ];
    registry(
        alloc,
        Wanted {
            rows: &rows,
            irqfds: &[(0, 4095, None), (255, 1, Some(9))],
            watches: &[(5, 20)],
        },
    )
}

const FIRST: Words = Words {
    gsis: [
        0,
        0x8000_0000_0000_018d,
        0x8000_0000_0000_0000,
        0,
        0x8000_0000_0000_1781,
        0x1040_4002,
    ],
    triggers: [8191, 0, 8195],
    pics: [0, 2, 0],
    ioapics: [0, 2, 21],
};

// GSI 0 is a message with a watch, GSI 15 has a pin of the 8259A pair, GSI 4,095 one of the I/O APIC and a resample counter.
fn second(alloc: Global) -> Result<Registry, Fail> {
    let rows = [
        Row::Pic { gsi: 15, pin: 1 },
        Row::Ioapic { gsi: 4095, pin: 0 },
        Row::Msi {
            gsi: 0,
            address: 0xfeef_f000,
            payload: 0x41,
        },
    ];
    registry(
        alloc,
        Wanted {
            rows: &rows,
            irqfds: &[(7, 4095, Some(1))],
            watches: &[(3, 0)],
        },
    )
}

const SECOND: Words = Words {
    gsis: [
        0x8000_0000_107f_c002,
        0,
        0x8000_0000_0000_0000,
        13,
        0,
        0x8000_0000_0000_0081,
    ],
    triggers: [0, 16383, 0],
    pics: [0, 16, 0],
    ioapics: [4096, 0, 0],
};

#[test]
fn words_are_those_of_the_published_registry(rt: HostRuntime) -> Result<(), Fail> {
    let alloc = rt.alloc();
    let (book, mut desk) = opened(alloc, first(alloc)?)?;
    let mut publisher = book.split(&mut desk, Some(1));
    let mut reader = book.split(&mut desk, Some(2));
    let mut other = book.split(&mut desk, Some(3));
    let change = Change::Put(1, second(alloc)?);
    let took = book.take(&mut publisher, 0);
    let Took::Got = took else {
        return Err(Fail::from("a turn that is taken"));
    };
    assert_eq!(rt; words_read(&book, &mut reader), FIRST);
    let had = book.front(&mut publisher);
    let passed = pass(&book, &mut other, 3);
    let lost = put_once(&book, &mut publisher, had, &change);
    let now = Front {
        generation: 0,
        length: 1,
    };
    assert!(rt; passed == Ok(0) && lost == Err(Refused::Lost(now)));
    assert_eq!(rt; words_read(&book, &mut reader), FIRST);
    let at = put(&book, &mut publisher, &change);
    assert!(rt; at == Ok(1));
    assert_eq!(rt; words_read(&book, &mut reader), SECOND);
    assert_eq!(rt; words_read(&book, &mut publisher), SECOND);
    Ok(())
}
