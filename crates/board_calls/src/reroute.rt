//! The routing table is replaced (KVM_SET_GSI_ROUTING).
ghost use Rattle.std.specs.Prelude.{◌≡◌, ℕ, ◌<◌, get_or, None};
ghost use Rattle.std.specs.FinSet as set;
ghost use Rattle.irq_base.specs.declared.event.Pin.TheVariants.{Pic, Ioapic};
ghost use Rattle.irq_base.specs.declared.shape.Shape.{Shape};
ghost use Rattle.route_table.specs.Rows.{refusal_of, table_of};
ghost use Rattle.route_table.specs.Pins.{gsi_of};
ghost use Rattle.board_model.specs.Run.{Wishes};
ghost use Rattle.board_raise.specs.Fit.{PairFits, IoapicFits};
ghost use Rattle.board_raise.specs.InHand.{pic_of, ioapic_of};
ghost use Rattle.board_calls.specs.Registrations.{is_same_gsi, reroute};
ghost use Rattle.board_calls.specs.Done.{Replies, IsMissing, SameInHand, FitsShape};
ghost use Rattle.board_calls.specs.Moved.{AreGsis, kept_by, without_pin};

use board_raise::{IoPart, Lacks, Parts, PicPart, RegistryPart};
use irq_base::{Part, Pin, Reply, Rows};
use route_table::Table;

// The GSI of each pin, by its number.
#[derive(Drop)]
struct PinGsis {
    pics: [Option<u16>; 16],
    ioapics: [Option<u16>; 24],
}

/// Replaces the routing table by that of rows which keep the rules. Each pin whose GSI is another than before, or has none now
/// or had none, loses all its holds and is low.
pub fn reroute(parts: &mut Parts, rows: &Rows) -> Result<Reply, Lacks>
    requires { refusal_of rows.now ≡ None }
    ensures does { (ws : Wishes) → Replies (reroute rows.now) parts.old ws result parts.new ws }
    ensures missing { IsMissing result parts.old }
    ensures held { SameInHand parts.old parts.new }
    ensures fits { (shape : Shape) → FitsShape shape parts.old → FitsShape shape parts.new }
{
    let Some(registry) = &mut parts.registry else {
        return Err(Lacks {
            part: Part::Registry,
        });
    };
    let Some(pic) = &mut parts.pic else {
        return Err(Lacks { part: Part::Pic });
    };
    let Some(ioapic) = &mut parts.ioapic else {
        return Err(Lacks { part: Part::Ioapic });
    };
    let (before, after) = replace(registry, rows);
    forget_moved_pics(pic, &before.pics, &after.pics);
    forget_moved_ioapics(ioapic, &before.ioapics, &after.ioapics);
    Ok(Reply::Done)
}

// The table is that of these rows from now on; the GSIs of the pins before and after it.
fn replace(registry: &mut RegistryPart, rows: &Rows) -> (PinGsis, PinGsis)
    requires { refusal_of rows.now ≡ None }
    ensures table { registry.new ≡ record registry.old { table = table_of rows.now } }
    ensures before { AreGsis result.0 registry.old.table }
    ensures after { AreGsis result.1 (table_of rows.now) }
{
    let before = pin_gsis(&registry.table);
    match registry.table.replace(rows) {
        Ok(()) => {}
        Err(_) => unreachable!(),
    }
    let after = pin_gsis(&registry.table);
    (before, after)
}

// The GSI of each pin.
fn pin_gsis(table: &Table) -> PinGsis
    ensures { AreGsis result table.now }
{
    PinGsis {
        pics: pic_gsis(table),
        ioapics: ioapic_gsis(table),
    }
}

// The GSI of each pin of the 8259A pair.
fn pic_gsis(table: &Table) -> [Option<u16>; 16]
    ensures { (n : ℕ) → get_or result n None ≡ gsi_of table.now (Pic n) }
{
    table.keeps_the_rules();
    let mut gsis = [None; 16];
    for pin in 0..16 {
        gsis[pin as usize] = table.gsi_of(Pin::Pic(pin));
    }
    gsis
}

// The GSI of each pin of the I/O APIC.
fn ioapic_gsis(table: &Table) -> [Option<u16>; 24]
    ensures { (n : ℕ) → get_or result n None ≡ gsi_of table.now (Ioapic n) }
{
    table.keeps_the_rules();
    let mut gsis = [None; 24];
    for pin in 0..24 {
        gsis[pin as usize] = table.gsi_of(Pin::Ioapic(pin));
    }
    gsis
}

// Whether both are one GSI, or neither is one.
fn is_same_gsi(before: Option<u16>, after: Option<u16>) -> bool
    ensures { result ≡ is_same_gsi before after }
{
    match (before, after) {
        (None, None) => true,
        (Some(a), Some(b)) => a == b,
        _ => false,
    }
}

// Each pin of the 8259A pair whose GSI is another than before loses all its holds, and is low.
fn forget_moved_pics(part: &mut PicPart, before: &[Option<u16>; 16], after: &[Option<u16>; 16])
    ensures after { pic_of part.new ≡ record (pic_of part.old) { holds = kept_by before.now after.now part.old.levels } }
    ensures fits { PairFits part.old.pair part.old.levels → PairFits part.new.pair part.new.levels }
{
    for pin in 0..16 {
        if !is_same_gsi(before[pin as usize], after[pin as usize]) {
            forget_pic(part, pin);
        }
    }
}

// Each pin of the I/O APIC whose GSI is another than before loses all its holds, and is low.
fn forget_moved_ioapics(part: &mut IoPart, before: &[Option<u16>; 24], after: &[Option<u16>; 24])
    ensures after { ioapic_of part.new ≡ record (ioapic_of part.old) { holds = kept_by before.now after.now part.old.levels } }
    ensures fits { IoapicFits part.old.ioapic part.old.levels → IoapicFits part.new.ioapic part.new.levels }
{
    for pin in 0..24 {
        if !is_same_gsi(before[pin as usize], after[pin as usize]) {
            forget_ioapic(part, pin);
        }
    }
}

// No source holds the pin of the 8259A pair any longer, and it is low; an edge that is latched stays so.
fn forget_pic(part: &mut PicPart, pin: u8)
    requires { pin < 16 }
    ensures after { pic_of part.new ≡ record (pic_of part.old) { holds = without_pin part.old.levels pin } }
    ensures fits { PairFits part.old.pair part.old.levels → PairFits part.new.pair part.new.levels }
{
    part.levels.forget(pin);
    let _low = part.pair.set_pin(pin, false);
}

// No source holds the pin of the I/O APIC any longer, and it is low; its remote IRR stays.
fn forget_ioapic(part: &mut IoPart, pin: u8)
    requires { pin < 24 }
    ensures after { ioapic_of part.new ≡ record (ioapic_of part.old) { holds = without_pin part.old.levels pin } }
    ensures fits { IoapicFits part.old.ioapic part.old.levels → IoapicFits part.new.ioapic part.new.levels }
{
    part.levels.forget(pin);
    part.ioapic.lower(pin);
}
