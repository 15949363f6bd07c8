//! Lines in their order: headers, actor lines, the end.
ghost use Rattle.std.specs.Prelude.{◌≡◌, ◌∷◌, Ok, Err, OnOk};
ghost use Rattle.std.specs.List.{list_all};
ghost use Rattle.script_text.specs.Causes.{of_one};
ghost use Rattle.script_text.specs.Words.{words_of, more_words};
ghost use Rattle.script_text.specs.Numbers.{decimal_in};
ghost use Rattle.script_text.specs.Commands.{one_field};
ghost use Rattle.script_text.specs.Draft.{script_in, IsIndexedDraft, Leads};
ghost use Rattle.script_text.specs.Scripts.{is_printable, is_passed_over, is_over, version, cpus, line_within, worded, judge, actor_line, with_cpus, with_counters, with_tick, with_calls, with_publications, with_line};

use crate::actor_lines::actor_line;
use crate::causes::LineFault;
use crate::draft::Draft;
use crate::numbers::decimal_in;
use crate::words::{first_word, has_empty_word, is_none, next_word, one_word};
use irq_base::LineCause;
use irq_bits::MAX_CPUS;
use std::alloc::Global;

/// What is awaited behind a line.
#[derive(Clone, Copy, Debug, PartialEq, Eq)]
pub enum Place {
    /// `irqboard 1`.
    Version,
    /// `cpus N`.
    Cpus,
    /// Headers that are not past, actor lines or the end; four headers are told apart.
    Within(u8),
    /// Nothing.
    Over,
}

/// Whether each byte of a line is one that a line may have, 20h to 7Eh.
pub fn is_printable(line: &[u8]) -> bool
    ensures { result ≡ list_all is_printable line.now }
{
    line.iter().all(|b| 0x20 <= *b && *b <= 0x7e)
}

fn is_passed_over(line: &[u8]) -> bool
    ensures { result ≡ is_passed_over line.now }
{
    line.is_empty() || line[0] == b'#'
}

// `irqboard 1`
fn version(draft: &Draft, line: &[u8]) -> Result<Place, LineFault>
    ensures { Leads result draft.now (version (script_in draft.now) (words_of line.now)) }
{
    let (name, tail) = first_word(line);
    let Some((number, tail)) = next_word(tail) else {
        let cause = if name == b"irqboard".as_slice() {
            LineCause::Count
        } else {
            LineCause::Word
        };
        return Err(LineFault::Bad(cause));
    };
    if name == b"irqboard".as_slice() && number == b"1".as_slice() {
        if is_none(tail) {
            Ok(Place::Cpus)
        } else {
            Err(LineFault::Bad(LineCause::Count))
        }
    } else {
        Err(LineFault::Bad(LineCause::Word))
    }
}

// `N` of `cpus`
fn cpus(draft: &mut Draft, tail: &[u8]) -> Result<Place, LineFault>
    ensures lead { Leads result draft.new (one_field (with_cpus (script_in draft.old)) (decimal_in 1 MAX_CPUS) (more_words tail.now)) }
    ensures index { IsIndexedDraft draft.old → IsIndexedDraft draft.new }
{
    let Some(word) = one_word(tail) else {
        return Err(LineFault::Bad(LineCause::Count));
    };
    match decimal_in(1, MAX_CPUS as u64, word) {
        Ok(n) => {
            draft.shape.cpus = n as u16;
            Ok(Place::Within(0))
        }
        Err(cause) => Err(LineFault::Bad(cause)),
    }
}

// `N` of `counters`
fn counters(draft: &mut Draft, tail: &[u8]) -> Result<Place, LineFault>
    ensures lead { Leads result draft.new (one_field (with_counters (script_in draft.old)) (decimal_in 0 256) (more_words tail.now)) }
    ensures index { IsIndexedDraft draft.old → IsIndexedDraft draft.new }
{
    let Some(word) = one_word(tail) else {
        return Err(LineFault::Bad(LineCause::Count));
    };
    match decimal_in(0, 256, word) {
        Ok(n) => {
            draft.shape.counters = n as u16;
            Ok(Place::Within(1))
        }
        Err(cause) => Err(LineFault::Bad(cause)),
    }
}

// `G` of `tick`
fn tick(draft: &mut Draft, tail: &[u8]) -> Result<Place, LineFault>
    ensures lead { Leads result draft.new (one_field (with_tick (script_in draft.old)) (decimal_in 0 4095) (more_words tail.now)) }
    ensures index { IsIndexedDraft draft.old → IsIndexedDraft draft.new }
{
    let Some(word) = one_word(tail) else {
        return Err(LineFault::Bad(LineCause::Count));
    };
    match decimal_in(0, 4095, word) {
        Ok(n) => {
            draft.shape.tick = n as u16;
            Ok(Place::Within(2))
        }
        Err(cause) => Err(LineFault::Bad(cause)),
    }
}

// `N` of `calls`
fn calls(draft: &mut Draft, tail: &[u8]) -> Result<Place, LineFault>
    ensures lead { Leads result draft.new (one_field (with_calls (script_in draft.old)) (decimal_in 1 4000000) (more_words tail.now)) }
    ensures index { IsIndexedDraft draft.old → IsIndexedDraft draft.new }
{
    let Some(word) = one_word(tail) else {
        return Err(LineFault::Bad(LineCause::Count));
    };
    match decimal_in(1, 4_000_000, word) {
        Ok(n) => {
            draft.shape.calls = n;
            Ok(Place::Within(3))
        }
        Err(cause) => Err(LineFault::Bad(cause)),
    }
}

// `N` of `publications`
fn publications(draft: &mut Draft, tail: &[u8]) -> Result<Place, LineFault>
    ensures lead { Leads result draft.new
        (one_field (with_publications (script_in draft.old)) (decimal_in 0 1048576) (more_words tail.now)) }
    ensures index { IsIndexedDraft draft.old → IsIndexedDraft draft.new }
{
    let Some(word) = one_word(tail) else {
        return Err(LineFault::Bad(LineCause::Count));
    };
    match decimal_in(0, 1_048_576, word) {
        Ok(n) => {
            draft.shape.publications = n as u32;
            Ok(Place::Within(4))
        }
        Err(cause) => Err(LineFault::Bad(cause)),
    }
}

// An actor line, put behind the others.
fn actor(alloc: Global, draft: &mut Draft, who: &[u8], tail: &[u8]) -> Result<Place, LineFault>
    ensures lead { let line = actor_line draft.old.shape (who.now ∷ more_words tail.now) in
        Leads result draft.new (of_one (with_line (script_in draft.old)) line) }
    ensures index { OnOk result (IsIndexedDraft draft.old → IsIndexedDraft draft.new) }
{
    match actor_line(alloc, &draft.shape, who, tail) {
        Ok(line) => match draft.push(alloc, line) {
            Ok(()) => Ok(Place::Within(4)),
            Err(_) => Err(LineFault::NoMemory),
        },
        Err(fault) => Err(fault),
    }
}

// A line behind `cpus`.
fn line_within(alloc: Global, past: u8, draft: &mut Draft, line: &[u8]) -> Result<Place, LineFault>
    ensures lead { Leads result draft.new (line_within past (script_in draft.old) (words_of line.now)) }
    ensures index { OnOk result (IsIndexedDraft draft.old → IsIndexedDraft draft.new) }
{
    let (name, tail) = first_word(line);
    if past < 1 && name == b"counters".as_slice() {
        counters(draft, tail)
    } else if past < 2 && name == b"tick".as_slice() {
        tick(draft, tail)
    } else if past < 3 && name == b"calls".as_slice() {
        calls(draft, tail)
    } else if past < 4 && name == b"publications".as_slice() {
        publications(draft, tail)
    } else if name == b"end".as_slice() {
        if is_none(tail) {
            Ok(Place::Over)
        } else {
            Err(LineFault::Bad(LineCause::Count))
        }
    } else {
        actor(alloc, draft, name, tail)
    }
}

// The line `cpus N`.
fn cpus_line(draft: &mut Draft, line: &[u8]) -> Result<Place, LineFault>
    ensures lead { Leads result draft.new (cpus (script_in draft.old) (words_of line.now)) }
    ensures index { IsIndexedDraft draft.old → IsIndexedDraft draft.new }
{
    let (name, tail) = first_word(line);
    if name == b"cpus".as_slice() {
        cpus(draft, tail)
    } else {
        Err(LineFault::Bad(LineCause::Word))
    }
}

// A line that is not passed over.
fn worded(alloc: Global, place: Place, draft: &mut Draft, line: &[u8]) -> Result<Place, LineFault>
    ensures lead { Leads result draft.new (worded place (script_in draft.old) (words_of line.now)) }
    ensures index { OnOk result (IsIndexedDraft draft.old → IsIndexedDraft draft.new) }
{
    if has_empty_word(line) {
        return Err(LineFault::Bad(LineCause::Word));
    }
    match place {
        Place::Version => version(draft, line),
        Place::Cpus => cpus_line(draft, line),
        Place::Within(past) => line_within(alloc, past, draft, line),
        Place::Over => Err(LineFault::Bad(LineCause::End)),
    }
}

fn is_over(place: Place) -> bool
    ensures { result ≡ is_over place }
{
    matches!(place, Place::Over)
}

// What a line makes of what stands before it.
#[tactic(auto, unfolding(crate::specs::Scripts::judge))]
pub fn judge(
    alloc: Global,
    place: Place,
    draft: &mut Draft,
    line: &[u8],
) -> Result<Place, LineFault>
    ensures lead { Leads result draft.new (judge place (script_in draft.old) line.now) }
    ensures index { OnOk result (IsIndexedDraft draft.old → IsIndexedDraft draft.new) }
{
    if !is_printable(line) {
        Err(LineFault::Bad(LineCause::Char))
    } else if is_over(place) {
        Err(LineFault::Bad(LineCause::End))
    } else if is_passed_over(line) {
        Ok(place)
    } else {
        worded(alloc, place, draft, line)
    }
}
