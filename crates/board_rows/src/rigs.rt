//! What a rig over a board on one thread holds, and what it answers of the published words.
//!
//! Expected values are those of the default routing: GSI n below 16 goes to pin n of both chips, GSI 16 to 23 to the I/O APIC
//! pin of its number; and of the rule that the tick's GSI is marked.
use board_raise::{BoardRig, Rig};
use irq_base::{Part, Pin, Targets};
use row_table::board_after;
use std::test::Fail;

#[test]
fn a_rig_tells_what_is_there(rt: HostRuntime) -> Result<(), Fail> {
    let Some(board) = board_after(rt.alloc(), "cpus 2\ntick 3")? else {
        return Err(Fail::new("no board"));
    };
    let (parts, words) = board.into_parts();
    let mut two = BoardRig::new(parts, words);
    assert!(rt; two.has(Part::Lapic(0)) && two.has(Part::Lapic(1)) && !two.has(Part::Lapic(2)));
    assert!(rt; two.has(Part::Registry) && two.has(Part::Pic));
    let both = Targets {
        pic: Some(5),
        ioapic: Some(5),
        msi: None,
    };
    let alone = Targets {
        pic: None,
        ioapic: Some(16),
        msi: None,
    };
    let none = Targets {
        pic: None,
        ioapic: None,
        msi: None,
    };
    assert_eq!(rt; two.targets(5), both);
    assert_eq!(rt; two.targets(16), alone);
    assert_eq!(rt; two.targets(4095), none);
    assert!(rt; two.marked(3) && !two.marked(4));
    assert_eq!(rt; two.gsi_of(Pin::Ioapic(23)), Some(23));
    assert_eq!(rt; two.gsi_of(Pin::Pic(0)), Some(0));
    assert!(rt; two.trigger(255).is_none());
    assert!(rt; two.wish().is_empty());
    Ok(())
}
