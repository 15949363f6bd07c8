//! Sources hold the pins of the chips in hand, and let them go.
ghost use Rattle.std.specs.Prelude.{◌≡◌, ◌<◌, true, option_map, IsTrue};
ghost use Rattle.pic_8259a.specs.Pair.{pin_outcome};
ghost use Rattle.ioapic_82093aa.specs.Pins.{raise_of, pin_accepted, pin_acked};
ghost use Rattle.source_levels.specs.Holds.{IsSource};
ghost use Rattle.route_table.specs.Words.{is_below};
ghost use Rattle.board_model.specs.Chips.{pair_of, ioapic_of as chip_of, with_ioapic};
ghost use Rattle.board_model.specs.Run.{Wishes, run_on};
ghost use Rattle.board_raise.specs.Fit.{PairFits, IoapicFits, PinsFit};
ghost use Rattle.board_raise.specs.InHand.{pic_of, ioapic_of, parts_of, chips_of, OnlyPinsChange};
ghost use Rattle.board_raise.specs.Shown.{DoesQuietly, Leaves};
ghost use Rattle.board_raise.specs.Signal.{pic_raised, pic_let_go, pic_answer, ioapic_raised, ioapic_let_go, raise_pic, raise_ioapic, accept_pin, let_go_pic, let_go_ioapic, let_go, let_go_after};

use crate::lacks::Lacks;
use crate::parts::{IoPart, Parts, PicPart};
use ioapic_82093aa::Raise;
use irq_base::{Part, Source, Targets};
use pic_8259a::PinOutcome;

impl PicPart {
    /// The source holds the pin, of 0 to 15, as well, and so the pin is high.
    pub fn raise(&mut self, pin: u8, source: Source) -> PinOutcome
        requires pin { pin < 16 }
        requires line { IsSource source }
        requires fits { PairFits self.old.pair self.old.levels }
        ensures after { pic_of self.new ≡ pic_raised (pic_of self.old) pin source }
        ensures answer { result ≡ pin_outcome (pair_of (pic_of self.old)) pin true }
        ensures fits { PairFits self.new.pair self.new.levels }
    {
        self.levels.raise(pin, source);
        self.pair.set_pin(pin, true)
    }

    /// The source holds the pin, of 0 to 15, no longer; a pin with no hold left is low.
    pub fn let_go(&mut self, pin: u8, source: Source)
        requires pin { pin < 16 }
        requires line { IsSource source }
        requires fits { PairFits self.old.pair self.old.levels }
        ensures after { pic_of self.new ≡ pic_let_go (pic_of self.old) pin source }
        ensures fits { PairFits self.new.pair self.new.levels }
    {
        self.levels.lower(pin, source);
        if !self.levels.high(pin) {
            let _lowered = self.pair.set_pin(pin, false);
        }
    }
}

impl IoPart {
    /// The source holds the pin, of 0 to 23, as well, and so the pin is high.
    pub fn raise(&mut self, pin: u8, source: Source) -> Raise
        requires pin { pin < 24 }
        requires line { IsSource source }
        requires fits { IoapicFits self.old.ioapic self.old.levels }
        ensures after { ioapic_of self.new ≡ ioapic_raised (ioapic_of self.old) pin source }
        ensures answer { result ≡ raise_of (chip_of (ioapic_of self.old)) pin }
        ensures fits { IoapicFits self.new.ioapic self.new.levels }
    {
        self.levels.raise(pin, source);
        self.ioapic.raise(pin)
    }

    /// The source holds the pin, of 0 to 23, no longer; a pin with no hold left is low.
    pub fn let_go(&mut self, pin: u8, source: Source)
        requires pin { pin < 24 }
        requires line { IsSource source }
        requires fits { IoapicFits self.old.ioapic self.old.levels }
        ensures after { ioapic_of self.new ≡ ioapic_let_go (ioapic_of self.old) pin source }
        ensures fits { IoapicFits self.new.ioapic self.new.levels }
    {
        self.levels.lower(pin, source);
        if !self.levels.high(pin) {
            self.ioapic.lower(pin);
        }
    }

    /// The processors took the message of the pin, of 0 to 23: a level-triggered entry sets remote IRR.
    pub fn accepted(&mut self, pin: u8)
        requires pin { pin < 24 }
        requires fits { IoapicFits self.old.ioapic self.old.levels }
        ensures after { ioapic_of self.new ≡ with_ioapic (ioapic_of self.old) (pin_accepted (chip_of (ioapic_of self.old)) pin) }
        ensures fits { IoapicFits self.new.ioapic self.new.levels }
    {
        self.ioapic.accepted(pin);
    }

    /// The interrupt of the pin, of 0 to 23, has ended: remote IRR is cleared.
    pub fn acked(&mut self, pin: u8)
        requires pin { pin < 24 }
        requires fits { IoapicFits self.old.ioapic self.old.levels }
        ensures after { ioapic_of self.new ≡ with_ioapic (ioapic_of self.old) (pin_acked (chip_of (ioapic_of self.old)) pin) }
        ensures fits { IoapicFits self.new.ioapic self.new.levels }
    {
        self.ioapic.acked(pin);
    }
}

/// The source holds the 8259A pin as well, if there is one.
pub fn raise_pic(
    parts: &mut Parts,
    pin: Option<u8>,
    source: Source,
) -> Result<Option<PinOutcome>, Lacks>
    requires pin { IsTrue (is_below pin 16) }
    requires line { IsSource source }
    requires fits { PinsFit (chips_of parts.old) }
    ensures does { (ws : Wishes) →
        DoesQuietly (option_map pic_answer) result (parts_of parts.new) ws (run_on (raise_pic pin source) (parts_of parts.old) ws) }
    ensures kept { OnlyPinsChange parts.old parts.new }
    ensures fits { PinsFit (chips_of parts.new) }
{
    let Some(pin) = pin else {
        return Ok(None);
    };
    match &mut parts.pic {
        None => Err(Lacks { part: Part::Pic }),
        Some(part) => Ok(Some(part.raise(pin, source))),
    }
}

/// The source holds the I/O APIC pin as well.
pub fn raise_ioapic(parts: &mut Parts, pin: u8, source: Source) -> Result<Raise, Lacks>
    requires pin { pin < 24 }
    requires line { IsSource source }
    requires fits { PinsFit (chips_of parts.old) }
    ensures does { (ws : Wishes) →
        DoesQuietly (λ answer. answer) result (parts_of parts.new) ws (run_on (raise_ioapic pin source) (parts_of parts.old) ws) }
    ensures kept { OnlyPinsChange parts.old parts.new }
    ensures fits { PinsFit (chips_of parts.new) }
{
    match &mut parts.ioapic {
        None => Err(Lacks { part: Part::Ioapic }),
        Some(part) => Ok(part.raise(pin, source)),
    }
}

/// Remote IRR of the pin is set, where processors took a level-triggered message.
pub fn accept_pin(parts: &mut Parts, pin: u8, is_accepted: bool) -> Result<(), Lacks>
    requires pin { pin < 24 }
    requires fits { PinsFit (chips_of parts.old) }
    ensures does { (ws : Wishes) → Leaves result (parts_of parts.new) ws (run_on (accept_pin pin is_accepted) (parts_of parts.old) ws) }
    ensures kept { OnlyPinsChange parts.old parts.new }
    ensures fits { PinsFit (chips_of parts.new) }
{
    if !is_accepted {
        return Ok(());
    }
    match &mut parts.ioapic {
        None => Err(Lacks { part: Part::Ioapic }),
        Some(part) => {
            part.accepted(pin);
            Ok(())
        }
    }
}

// The source holds the 8259A pin no longer, if there is one.
fn let_go_pic(parts: &mut Parts, pin: Option<u8>, source: Source) -> Result<(), Lacks>
    requires pin { IsTrue (is_below pin 16) }
    requires line { IsSource source }
    requires fits { PinsFit (chips_of parts.old) }
    ensures does { (ws : Wishes) → Leaves result (parts_of parts.new) ws (run_on (let_go_pic pin source) (parts_of parts.old) ws) }
    ensures kept { OnlyPinsChange parts.old parts.new }
    ensures fits { PinsFit (chips_of parts.new) }
{
    let Some(pin) = pin else {
        return Ok(());
    };
    match &mut parts.pic {
        None => Err(Lacks { part: Part::Pic }),
        Some(part) => {
            part.let_go(pin, source);
            Ok(())
        }
    }
}

// The source holds the I/O APIC pin no longer, if there is one.
fn let_go_ioapic(parts: &mut Parts, pin: Option<u8>, source: Source) -> Result<(), Lacks>
    requires pin { IsTrue (is_below pin 24) }
    requires line { IsSource source }
    requires fits { PinsFit (chips_of parts.old) }
    ensures does { (ws : Wishes) → Leaves result (parts_of parts.new) ws (run_on (let_go_ioapic pin source) (parts_of parts.old) ws) }
    ensures kept { OnlyPinsChange parts.old parts.new }
    ensures fits { PinsFit (chips_of parts.new) }
{
    let Some(pin) = pin else {
        return Ok(());
    };
    match &mut parts.ioapic {
        None => Err(Lacks { part: Part::Ioapic }),
        Some(part) => {
            part.let_go(pin, source);
            Ok(())
        }
    }
}

/// The source holds no pin of the targets any longer, whether it held them or not.
pub fn let_go(parts: &mut Parts, targets: &Targets, source: Source) -> Result<(), Lacks>
    requires pic { IsTrue (is_below targets.now.pic 16) }
    requires ioapic { IsTrue (is_below targets.now.ioapic 24) }
    requires line { IsSource source }
    requires fits { PinsFit (chips_of parts.old) }
    ensures does { (ws : Wishes) → Leaves result (parts_of parts.new) ws (run_on (let_go targets.now source) (parts_of parts.old) ws) }
    ensures kept { OnlyPinsChange parts.old parts.new }
    ensures fits { PinsFit (chips_of parts.new) }
{
    match let_go_pic(parts, targets.pic, source) {
        Ok(()) => let_go_ioapic(parts, targets.ioapic, source),
        Err(lacks) => Err(lacks),
    }
}

/// After an injection the source lets go of the targets; `Resample` holds them until they are acknowledged.
pub fn let_go_after(parts: &mut Parts, targets: &Targets, source: Source) -> Result<(), Lacks>
    requires pic { IsTrue (is_below targets.now.pic 16) }
    requires ioapic { IsTrue (is_below targets.now.ioapic 24) }
    requires line { IsSource source }
    requires fits { PinsFit (chips_of parts.old) }
    ensures does { (ws : Wishes) →
        Leaves result (parts_of parts.new) ws (run_on (let_go_after targets.now source) (parts_of parts.old) ws) }
    ensures kept { OnlyPinsChange parts.old parts.new }
    ensures fits { PinsFit (chips_of parts.new) }
{
    match source {
        Source::Resample => Ok(()),
        _ => let_go(parts, targets, source),
    }
}
