//! Register tables.
ghost use Rattle.std.specs.Prelude.{◌≡◌};

use reg_table::{RegRow, RegTable};
use std::test::Fail;

// Three rows out of order: each offset is found at its own row, an offset that no row has nowhere.
#[test]
fn finds_the_row_of_an_offset(rt: HostRuntime) -> Result<(), Fail> {
    macro_rules! row {
        ($offset:expr, $writable:expr) => {
            RegRow {
                offset: $offset,
                readable: 0xffff_ffff,
                writable: $writable,
                reset: 0,
            }
        };
    }
    let table = RegTable::of([row!(0x80, 0xff), row!(0x20, 0), row!(0x350, 0x0001_a7ff)]);
    assert_eq!(rt; table.find(0x80), Some(0));
    assert_eq!(rt; table.find(0x20), Some(1));
    assert_eq!(rt; table.find(0x350), Some(2));
    assert_eq!(rt; table.find(0x50), None);
    assert_eq!(rt; table.find(0), None);
    assert_eq!(rt; table.row(2).writable, 0x0001_a7ff);
    assert_eq!(rt; table.row(1).offset, 0x20);
    Ok(())
}
