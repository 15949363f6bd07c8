//! The commands of scripts: a first word, and the words behind it.
ghost use Rattle.std.specs.Prelude.{◌≡◌};
ghost use Rattle.script_text.specs.Words.{more_words, none};
ghost use Rattle.script_text.specs.Causes.{of_one, Says};
ghost use Rattle.script_text.specs.Numbers.{hex64, hex32, hex16, number64, number16, number8};
ghost use Rattle.script_text.specs.Commands.{command, rows, assign, binding, optional, space, level, switch, one_field, two_fields, three_fields};
ghost use Rattle.irq_base.specs.declared.call.Call.TheVariants.{Line, Msi, Write, Take, Deassign, Reroute, Attach, Detach, Watch, Unwatch, TickMode, PortOut, PortIn, Store, Load};

use crate::causes::{LineFault, all_five, all_three, both, or_bad};
use crate::numbers::{hex16, hex32, hex64, number8, number16, number64};
use crate::rows::rows;
use crate::words::{is_none, next_word, one_word, three_words, two_words};
use irq_base::{Call, LineCause, Space};
use std::alloc::Global;

fn space(word: &[u8]) -> Result<Space, LineCause>
    ensures { result ≡ space word.now }
{
    if word == b"port".as_slice() {
        Ok(Space::Port)
    } else if word == b"mem".as_slice() {
        Ok(Space::Memory)
    } else {
        Err(LineCause::Count)
    }
}

fn level(word: &[u8]) -> Result<bool, LineCause>
    ensures { result ≡ level word.now }
{
    if word == b"up".as_slice() {
        Ok(true)
    } else if word == b"down".as_slice() {
        Ok(false)
    } else {
        Err(LineCause::Count)
    }
}

fn switch(word: &[u8]) -> Result<bool, LineCause>
    ensures { result ≡ switch word.now }
{
    if word == b"on".as_slice() {
        Ok(true)
    } else if word == b"off".as_slice() {
        Ok(false)
    } else {
        Err(LineCause::Count)
    }
}

// A command without words behind it.
fn alone(tail: &[u8], call: Call) -> Result<Call, LineCause>
    ensures { result ≡ none (more_words tail.now) call }
{
    if is_none(tail) {
        Ok(call)
    } else {
        Err(LineCause::Count)
    }
}

// `GSI LINE up` or `GSI LINE down`
fn line(tail: &[u8]) -> Result<Call, LineCause>
    ensures { result ≡ three_fields (λ g l u. Line g l u) number16 number8 level (more_words tail.now) }
{
    let Some((gsi, line, up)) = three_words(tail) else {
        return Err(LineCause::Count);
    };
    match all_three(number16(gsi), number8(line), level(up)) {
        Ok((gsi, line, high)) => Ok(Call::Line { gsi, line, high }),
        Err(cause) => Err(cause),
    }
}

// `ADDR PAYLOAD`
fn msi(tail: &[u8]) -> Result<Call, LineCause>
    ensures { result ≡ two_fields (λ a p. Msi a p) hex64 hex32 (more_words tail.now) }
{
    let Some((address, payload)) = two_words(tail) else {
        return Err(LineCause::Count);
    };
    match both(hex64(address), hex32(payload)) {
        Ok((address, payload)) => Ok(Call::Msi { address, payload }),
        Err(cause) => Err(cause),
    }
}

// `C N`
fn write(tail: &[u8]) -> Result<Call, LineCause>
    ensures { result ≡ two_fields (λ c n. Write c n) number16 number64 (more_words tail.now) }
{
    let Some((counter, n)) = two_words(tail) else {
        return Err(LineCause::Count);
    };
    match both(number16(counter), number64(n)) {
        Ok((counter, n)) => Ok(Call::Write { counter, n }),
        Err(cause) => Err(cause),
    }
}

// `C`
fn take(tail: &[u8]) -> Result<Call, LineCause>
    ensures { result ≡ one_field (λ c. Take c) number16 (more_words tail.now) }
{
    let Some(counter) = one_word(tail) else {
        return Err(LineCause::Count);
    };
    match number16(counter) {
        Ok(counter) => Ok(Call::Take { counter }),
        Err(cause) => Err(cause),
    }
}

// `C GSI`
fn deassign(tail: &[u8]) -> Result<Call, LineCause>
    ensures { result ≡ two_fields (λ c g. Deassign c g) number16 number16 (more_words tail.now) }
{
    let Some((trigger, gsi)) = two_words(tail) else {
        return Err(LineCause::Count);
    };
    match both(number16(trigger), number16(gsi)) {
        Ok((trigger, gsi)) => Ok(Call::Deassign { trigger, gsi }),
        Err(cause) => Err(cause),
    }
}

// `C GSI`
fn watch(tail: &[u8]) -> Result<Call, LineCause>
    ensures { result ≡ two_fields (λ c g. Watch c g) number16 number16 (more_words tail.now) }
{
    let Some((counter, gsi)) = two_words(tail) else {
        return Err(LineCause::Count);
    };
    match both(number16(counter), number16(gsi)) {
        Ok((counter, gsi)) => Ok(Call::Watch { counter, gsi }),
        Err(cause) => Err(cause),
    }
}

// `C GSI`
fn unwatch(tail: &[u8]) -> Result<Call, LineCause>
    ensures { result ≡ two_fields (λ c g. Unwatch c g) number16 number16 (more_words tail.now) }
{
    let Some((counter, gsi)) = two_words(tail) else {
        return Err(LineCause::Count);
    };
    match both(number16(counter), number16(gsi)) {
        Ok((counter, gsi)) => Ok(Call::Unwatch { counter, gsi }),
        Err(cause) => Err(cause),
    }
}

// `on` or `off`
fn tickmode(tail: &[u8]) -> Result<Call, LineCause>
    ensures { result ≡ one_field (λ r. TickMode r) switch (more_words tail.now) }
{
    let Some(on) = one_word(tail) else {
        return Err(LineCause::Count);
    };
    match switch(on) {
        Ok(reinject) => Ok(Call::TickMode { reinject }),
        Err(cause) => Err(cause),
    }
}

// `PORT LEN VALUE`
fn out(tail: &[u8]) -> Result<Call, LineCause>
    ensures { result ≡ three_fields (λ p l v. PortOut p l v) hex16 number8 hex32 (more_words tail.now) }
{
    let Some((port, len, value)) = three_words(tail) else {
        return Err(LineCause::Count);
    };
    match all_three(hex16(port), number8(len), hex32(value)) {
        Ok((port, len, value)) => Ok(Call::PortOut { port, len, value }),
        Err(cause) => Err(cause),
    }
}

// `PORT LEN`
fn port_in(tail: &[u8]) -> Result<Call, LineCause>
    ensures { result ≡ two_fields (λ p l. PortIn p l) hex16 number8 (more_words tail.now) }
{
    let Some((port, len)) = two_words(tail) else {
        return Err(LineCause::Count);
    };
    match both(hex16(port), number8(len)) {
        Ok((port, len)) => Ok(Call::PortIn { port, len }),
        Err(cause) => Err(cause),
    }
}

// `ADDR LEN VALUE`
fn store(tail: &[u8]) -> Result<Call, LineCause>
    ensures { result ≡ three_fields (λ a l v. Store a l v) hex64 number8 hex64 (more_words tail.now) }
{
    let Some((address, len, value)) = three_words(tail) else {
        return Err(LineCause::Count);
    };
    match all_three(hex64(address), number8(len), hex64(value)) {
        Ok((address, len, value)) => Ok(Call::Store {
            address,
            len,
            value,
        }),
        Err(cause) => Err(cause),
    }
}

// `ADDR LEN`
fn load(tail: &[u8]) -> Result<Call, LineCause>
    ensures { result ≡ two_fields (λ a l. Load a l) hex64 number8 (more_words tail.now) }
{
    let Some((address, len)) = two_words(tail) else {
        return Err(LineCause::Count);
    };
    match both(hex64(address), number8(len)) {
        Ok((address, len)) => Ok(Call::Load { address, len }),
        Err(cause) => Err(cause),
    }
}

// Nothing, or the fixed word and a decimal number behind it.
fn optional_number(fixed: &[u8], tail: &[u8]) -> Result<Option<u16>, LineCause>
    ensures { result ≡ optional fixed.now number16 (more_words tail.now) }
{
    if is_none(tail) {
        return Ok(None);
    }
    let Some((word, value)) = two_words(tail) else {
        return Err(LineCause::Count);
    };
    if word != fixed {
        return Err(LineCause::Count);
    }
    match number16(value) {
        Ok(number) => Ok(Some(number)),
        Err(cause) => Err(cause),
    }
}

// Nothing, or the fixed word and a hexadecimal number behind it.
fn optional_value(fixed: &[u8], tail: &[u8]) -> Result<Option<u64>, LineCause>
    ensures { result ≡ optional fixed.now hex64 (more_words tail.now) }
{
    if is_none(tail) {
        return Ok(None);
    }
    let Some((word, value)) = two_words(tail) else {
        return Err(LineCause::Count);
    };
    if word != fixed {
        return Err(LineCause::Count);
    }
    match hex64(value) {
        Ok(number) => Ok(Some(number)),
        Err(cause) => Err(cause),
    }
}

// `C GSI`, and then `resample C` if wanted
fn assign(tail: &[u8]) -> Result<Call, LineCause>
    ensures { result ≡ assign (more_words tail.now) }
{
    let Some((trigger, tail)) = next_word(tail) else {
        return Err(LineCause::Count);
    };
    let Some((gsi, tail)) = next_word(tail) else {
        return Err(LineCause::Count);
    };
    let resample = optional_number(b"resample".as_slice(), tail);
    match all_three(number16(trigger), number16(gsi), resample) {
        Ok((trigger, gsi, resample)) => Ok(Call::Assign {
            trigger,
            gsi,
            resample,
        }),
        Err(cause) => Err(cause),
    }
}

// `SPACE ADDR LEN C`, and then `match VALUE` if wanted
fn attach(tail: &[u8]) -> Result<Call, LineCause>
    ensures { result ≡ binding (λ s a l c w. Attach s a l c w) (more_words tail.now) }
{
    let Some((place, tail)) = next_word(tail) else {
        return Err(LineCause::Count);
    };
    let Some((address, tail)) = next_word(tail) else {
        return Err(LineCause::Count);
    };
    let Some((len, tail)) = next_word(tail) else {
        return Err(LineCause::Count);
    };
    let Some((counter, tail)) = next_word(tail) else {
        return Err(LineCause::Count);
    };
    let want = optional_value(b"match".as_slice(), tail);
    match all_five(
        space(place),
        hex64(address),
        number8(len),
        number16(counter),
        want,
    ) {
        Ok((space, address, len, counter, want)) => Ok(Call::Attach {
            space,
            address,
            len,
            counter,
            want,
        }),
        Err(cause) => Err(cause),
    }
}

// As `attach`, of the binding that ends.
fn detach(tail: &[u8]) -> Result<Call, LineCause>
    ensures { result ≡ binding (λ s a l c w. Detach s a l c w) (more_words tail.now) }
{
    let Some((place, tail)) = next_word(tail) else {
        return Err(LineCause::Count);
    };
    let Some((address, tail)) = next_word(tail) else {
        return Err(LineCause::Count);
    };
    let Some((len, tail)) = next_word(tail) else {
        return Err(LineCause::Count);
    };
    let Some((counter, tail)) = next_word(tail) else {
        return Err(LineCause::Count);
    };
    let want = optional_value(b"match".as_slice(), tail);
    match all_five(
        space(place),
        hex64(address),
        number8(len),
        number16(counter),
        want,
    ) {
        Ok((space, address, len, counter, want)) => Ok(Call::Detach {
            space,
            address,
            len,
            counter,
            want,
        }),
        Err(cause) => Err(cause),
    }
}

fn reroute(alloc: Global, tail: &[u8]) -> Result<Call, LineFault>
    ensures { Says result (of_one (λ rs. Reroute rs) (rows (more_words tail.now))) }
{
    match rows(alloc, tail) {
        Ok(rows) => Ok(Call::Reroute { rows }),
        Err(fault) => Err(fault),
    }
}

/// The call of a command: `tail` is nothing, or a space and the words behind the command's name.
pub fn command(alloc: Global, name: &[u8], tail: &[u8]) -> Result<Call, LineFault>
    ensures { Says result (command name.now (more_words tail.now)) }
{
    if name == b"line".as_slice() {
        or_bad(line(tail))
    } else if name == b"msi".as_slice() {
        or_bad(msi(tail))
    } else if name == b"write".as_slice() {
        or_bad(write(tail))
    } else if name == b"take".as_slice() {
        or_bad(take(tail))
    } else if name == b"assign".as_slice() {
        or_bad(assign(tail))
    } else if name == b"deassign".as_slice() {
        or_bad(deassign(tail))
    } else if name == b"reroute".as_slice() {
        reroute(alloc, tail)
    } else if name == b"attach".as_slice() {
        or_bad(attach(tail))
    } else if name == b"detach".as_slice() {
        or_bad(detach(tail))
    } else if name == b"watch".as_slice() {
        or_bad(watch(tail))
    } else if name == b"unwatch".as_slice() {
        or_bad(unwatch(tail))
    } else if name == b"tick".as_slice() {
        or_bad(alone(tail, Call::Tick))
    } else if name == b"tickmode".as_slice() {
        or_bad(tickmode(tail))
    } else if name == b"out".as_slice() {
        or_bad(out(tail))
    } else if name == b"in".as_slice() {
        or_bad(port_in(tail))
    } else if name == b"store".as_slice() {
        or_bad(store(tail))
    } else if name == b"load".as_slice() {
        or_bad(load(tail))
    } else if name == b"ack".as_slice() {
        or_bad(alone(tail, Call::Ack))
    } else if name == b"inta".as_slice() {
        or_bad(alone(tail, Call::Inta))
    } else if name == b"eoi".as_slice() {
        or_bad(alone(tail, Call::Eoi))
    } else {
        Err(LineFault::Bad(LineCause::Word))
    }
}
