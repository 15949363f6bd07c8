//! Writes, reads and clocks of a channel, one after another.
use crate::meter::Meter;
use irq_base::Events;
use pit_8254::{CHANNEL_PORT, CONTROL_PORT, Pit};
use std::process::Abort;

/// What is done to a channel, and what it answers.
#[derive(Clone, Copy)]
enum Step {
    /// A control word is written.
    Word(u8),
    /// A byte of a count is written.
    Byte(u8),
    /// A byte of the count is read.
    Read(u8),
    /// So many clocks go by, with so many ticks.
    Clocks(u64, u64),
}

use Step::{Byte, Clocks, Read, Word};

const ROWS: [(&str, &[Step]); 28] = [
    (
        "65,536 is written as 0",
        &[Word(0x34), Byte(0), Byte(0), Clocks(1_000_000, 15)],
    ),
    (
        "the system timer's count",
        &[Word(0x34), Byte(0x9c), Byte(0x2e), Clocks(1_193_182, 99)],
    ),
    ("count 2", &[Word(0x34), Byte(2), Byte(0), Clocks(10, 5)]),
    (
        "the least count, as often as may be",
        &[Word(0x14), Byte(2), Clocks(10_000_000, 5_000_000)],
    ),
    (
        "mode 0",
        &[
            Word(0x30),
            Byte(3),
            Byte(0),
            Clocks(3, 0),
            Clocks(1, 1),
            Clocks(100, 0),
        ],
    ),
    (
        "mode 4, and its count anew",
        &[
            Word(0x18),
            Byte(3),
            Clocks(3, 0),
            Clocks(1, 1),
            Clocks(100, 0),
            Byte(3),
            Clocks(4, 1),
        ],
    ),
    (
        "mode 0 loads at once in mid-count",
        &[
            Word(0x10),
            Byte(5),
            Clocks(4, 0),
            Byte(5),
            Clocks(5, 0),
            Clocks(1, 1),
        ],
    ),
    (
        "mode 3",
        &[
            Word(0x16),
            Byte(5),
            Clocks(4, 0),
            Clocks(1, 1),
            Clocks(10, 2),
        ],
    ),
    (
        "mode 6 is mode 2",
        &[Word(0x1c), Byte(5), Clocks(4, 0), Clocks(11, 3)],
    ),
    (
        "mode 7 is mode 3",
        &[Word(0x1e), Byte(5), Clocks(4, 0), Clocks(11, 3)],
    ),
    (
        "the high byte alone",
        &[Word(0x24), Byte(1), Clocks(255, 0), Clocks(1, 1)],
    ),
    (
        "a high byte of 0",
        &[Word(0x24), Byte(0), Clocks(65_535, 0), Clocks(1, 1)],
    ),
    (
        "a next count waits for the tick",
        &[
            Word(0x14),
            Byte(4),
            Clocks(1, 0),
            Byte(3),
            Clocks(2, 0),
            Clocks(1, 1),
            Clocks(2, 0),
            Clocks(1, 1),
        ],
    ),
    (
        "a low byte alone is no next count",
        &[
            Word(0x34),
            Byte(4),
            Byte(0),
            Byte(9),
            Clocks(8, 2),
            Byte(0),
            Clocks(4, 1),
            Clocks(8, 0),
            Clocks(1, 1),
        ],
    ),
    (
        "count 1 stops mode 2 until the next",
        &[
            Word(0x14),
            Byte(4),
            Clocks(3, 0),
            Byte(1),
            Clocks(100, 0),
            Read(0),
            Byte(2),
            Clocks(2, 1),
        ],
    ),
    (
        "count 1 stops mode 3",
        &[Word(0x16), Byte(1), Clocks(10, 0), Byte(3), Clocks(3, 1)],
    ),
    (
        "count 1 in mode 0",
        &[
            Word(0x10),
            Byte(1),
            Clocks(1, 0),
            Clocks(1, 1),
            Clocks(9, 0),
        ],
    ),
    (
        "count 1 drops the next count",
        &[
            Word(0x14),
            Byte(4),
            Byte(3),
            Byte(1),
            Byte(5),
            Clocks(4, 0),
            Clocks(1, 1),
            Clocks(5, 1),
        ],
    ),
    (
        "bad words stop, and counts after them do nothing",
        &[
            Word(0x14),
            Byte(4),
            Clocks(1, 0),
            Word(0x15),
            Clocks(100, 0),
            Read(0),
            Byte(2),
            Clocks(100, 0),
            Word(0x12),
            Byte(2),
            Clocks(100, 0),
            Word(0x1a),
            Byte(2),
            Clocks(100, 0),
            Word(0x14),
            Byte(2),
            Clocks(4, 2),
        ],
    ),
    (
        "a word with access 00 latches, whatever else it says",
        &[
            Word(0x14),
            Byte(4),
            Clocks(1, 0),
            Word(0x0f),
            Clocks(2, 0),
            Read(3),
            Read(1),
            Clocks(1, 1),
        ],
    ),
    (
        "words for other channels, and read-back",
        &[
            Word(0x14),
            Byte(4),
            Clocks(2, 0),
            Word(0x74),
            Word(0xb4),
            Word(0xc2),
            Clocks(2, 1),
        ],
    ),
    (
        "counts before the first word",
        &[Byte(2), Clocks(10, 0), Read(0), Word(0x00), Read(0)],
    ),
    (
        "both bytes of the count, as it runs and latched",
        &[
            Word(0x34),
            Byte(0x34),
            Byte(0x12),
            Read(0x34),
            Read(0x12),
            Clocks(1, 0),
            Read(0x33),
            Read(0x12),
            Word(0x00),
            Clocks(0x33, 0),
            Read(0x33),
            Read(0x12),
            Read(0x00),
            Read(0x12),
            Word(0x00),
            Clocks(1, 0),
            Word(0x00),
            Read(0xff),
            Read(0x11),
            Read(0xff),
            Word(0x00),
            Read(0xff),
            Read(0x11),
            Read(0x11),
            Word(0x00),
            Word(0x14),
            Read(0),
        ],
    ),
    (
        "one byte of the count",
        &[
            Word(0x14),
            Byte(0x34),
            Read(0x34),
            Read(0x34),
            Word(0x24),
            Byte(0x12),
            Read(0x12),
            Clocks(1, 0),
            Read(0x11),
        ],
    ),
    (
        "65,536 reads as 0",
        &[
            Word(0x34),
            Byte(0),
            Byte(0),
            Read(0),
            Read(0),
            Clocks(1, 0),
            Read(0xff),
            Read(0xff),
        ],
    ),
    (
        "past the count a read gives 0",
        &[
            Word(0x10),
            Byte(3),
            Clocks(3, 0),
            Read(0),
            Clocks(2, 1),
            Read(0),
        ],
    ),
    (
        "a latched count is given though the channel is stopped",
        &[
            Word(0x14),
            Byte(9),
            Clocks(2, 0),
            Word(0x00),
            Byte(1),
            Read(7),
            Read(0),
        ],
    ),
    (
        "a word in mid-count stops, and drops what waits and what comes next",
        &[
            Word(0x14),
            Byte(10),
            Clocks(7, 0),
            Byte(3),
            Word(0x30),
            Clocks(100, 0),
            Byte(5),
            Word(0x30),
            Byte(2),
            Byte(0),
            Clocks(2, 0),
            Clocks(1, 1),
            Word(0x14),
            Byte(6),
            Clocks(5, 0),
            Clocks(7, 2),
        ],
    ),
];

// Plays the steps of a row on a channel at power-on: the ticks that it answers are those that its face was asked, and no other calls
// were.
fn play(rt: &impl Abort, name: &str, steps: &[Step]) {
    let mut events = Events::new();
    let mut pit = Pit::power_on();
    let mut face = Meter::of(1 << 40);
    let mut all = 0u64;
    for step in steps {
        match *step {
            Word(word) => pit.write(CONTROL_PORT, word),
            Byte(byte) => pit.write(CHANNEL_PORT, byte),
            Read(byte) => assert_eq!(rt; pit.read(CHANNEL_PORT), byte, "{name}"),
            Clocks(clocks, ticks) => {
                assert!(rt; clocks <= 10_000_000);
                let answer = pit.advance(clocks, &mut face, &mut events);
                assert!(rt; answer == Ok(ticks), "{name}");
                all = all.saturating_add(ticks);
            }
        }
    }
    assert!(rt; face.asked == all && face.ticks == all, "{name}");
}

#[test]
fn a_channel_ticks(rt: HostRuntime) {
    for (name, steps) in &ROWS {
        play(&rt, name, steps);
    }
}
