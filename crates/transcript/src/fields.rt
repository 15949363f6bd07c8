//! The fields of an entry's line: statuses and replies.
ghost use Rattle.std.specs.Prelude.{◌≡◌, codes};
ghost use Rattle.irq_base.specs.declared.reply.Reply.TheVariants.{Count as Counted, Removed, Value, Vector, Extint, Ended, Held};
ghost use Rattle.irq_base.specs.declared.status.Status.TheVariants.{Coalesced, Ignored};
ghost use Rattle.script_text.specs.Causes.{of_one};
ghost use Rattle.script_text.specs.Words.{more_words, none, one};
ghost use Rattle.script_text.specs.Numbers.{hex64, hex8, number64, number8};
ghost use Rattle.transcript.specs.Fields as fields;

use irq_base::{Cause, LineCause, Refusal, Reply, Status};
use irq_bits::CpuSet;
use script_text::{
    all_three, hex8, hex64, is_none, next_word, number8, number64, one_word, three_words, two_words,
};

// A set of processors behind its label.
fn set_field(label: &[u8], word: &[u8]) -> Result<CpuSet, LineCause>
    ensures { result ≡ fields.set_field label.now word.now }
{
    let Some(digits) = word.strip_prefix(label) else {
        return Err(LineCause::Number);
    };
    match hex64(digits) {
        Ok(bits) => Ok(CpuSet::of_bits(bits)),
        Err(cause) => Err(cause),
    }
}

// Whether the 8259A newly took it.
fn pic_field(word: &[u8]) -> Result<bool, LineCause>
    ensures { result ≡ fields.pic_field word.now }
{
    if word == b"pic=1".as_slice() {
        Ok(true)
    } else if word == b"pic=0".as_slice() {
        Ok(false)
    } else {
        Err(LineCause::Number)
    }
}

fn cause(word: &[u8]) -> Result<Cause, LineCause>
    ensures { result ≡ fields.cause word.now }
{
    if word == b"masked".as_slice() {
        Ok(Cause::Masked)
    } else if word == b"unrouted".as_slice() {
        Ok(Cause::Unrouted)
    } else if word == b"no-processor".as_slice() {
        Ok(Cause::NoProcessor)
    } else if word == b"bad-vector".as_slice() {
        Ok(Cause::BadVector)
    } else if word == b"mode".as_slice() {
        Ok(Cause::Mode)
    } else {
        Err(LineCause::Count)
    }
}

// `new=HEX stood=HEX pic=0` or `pic=1`
fn delivered(tail: &[u8]) -> Result<Status, LineCause>
    ensures { result ≡ fields.delivered (more_words tail.now) }
{
    let Some((new, stood, pic)) = three_words(tail) else {
        return Err(LineCause::Count);
    };
    let new = set_field(b"new=".as_slice(), new);
    match all_three(new, set_field(b"stood=".as_slice(), stood), pic_field(pic)) {
        Ok((new, stood, pic)) => Ok(Status::Delivered { new, stood, pic }),
        Err(cause) => Err(cause),
    }
}

// `stood=HEX`
fn coalesced(tail: &[u8]) -> Result<Status, LineCause>
    ensures { result ≡ of_one (λ stood. Coalesced stood) (one (more_words tail.now) (fields.set_field (codes "stood="))) }
{
    let Some(stood) = one_word(tail) else {
        return Err(LineCause::Count);
    };
    match set_field(b"stood=".as_slice(), stood) {
        Ok(stood) => Ok(Status::Coalesced { stood }),
        Err(cause) => Err(cause),
    }
}

// The word of a cause.
fn ignored(tail: &[u8]) -> Result<Status, LineCause>
    ensures { result ≡ of_one (λ c. Ignored c) (one (more_words tail.now) fields.cause) }
{
    let Some(word) = one_word(tail) else {
        return Err(LineCause::Count);
    };
    match cause(word) {
        Ok(cause) => Ok(Status::Ignored(cause)),
        Err(cause) => Err(cause),
    }
}

// A status by its first word.
fn status_named(name: &[u8], tail: &[u8]) -> Result<Status, LineCause>
    ensures { result ≡ fields.status_named name.now (more_words tail.now) }
{
    if name == b"delivered".as_slice() {
        delivered(tail)
    } else if name == b"coalesced".as_slice() {
        coalesced(tail)
    } else if name == b"ignored".as_slice() {
        ignored(tail)
    } else if name == b"lowered".as_slice() {
        if is_none(tail) {
            Ok(Status::Lowered)
        } else {
            Err(LineCause::Count)
        }
    } else {
        Err(LineCause::Word)
    }
}

/// The status of the next words.
pub fn status(tail: &[u8]) -> Result<Status, LineCause>
    ensures { result ≡ fields.status (more_words tail.now) }
{
    match next_word(tail) {
        None => Err(LineCause::Word),
        Some((name, tail)) => status_named(name, tail),
    }
}

// The refusal that has this number.
fn refusal_of(n: u8) -> Option<Refusal>
    ensures { result ≡ fields.refusal_of n }
{
    match n {
        1 => Some(Refusal::NoGsi),
        2 => Some(Refusal::NoCounter),
        3 => Some(Refusal::BadRow),
        4 => Some(Refusal::ChipTwice),
        5 => Some(Refusal::Mixed),
        6 => Some(Refusal::PinTwice),
        7 => Some(Refusal::Busy),
        8 => Some(Refusal::RoleClash),
        9 => Some(Refusal::Full),
        10 => Some(Refusal::Exists),
        11 => Some(Refusal::NotThere),
        12 => Some(Refusal::BadRange),
        13 => Some(Refusal::ChipAddress),
        14 => Some(Refusal::Over),
        15 => Some(Refusal::BadCount),
        16 => Some(Refusal::NoLine),
        17 => Some(Refusal::BadMsi),
        _ => None,
    }
}

// A refusal's number, and its word beside it.
fn refusal(number: &[u8], word: &[u8]) -> Result<Refusal, LineCause>
    ensures { result ≡ fields.refusal_by (number8 number.now) word.now }
{
    match number8(number) {
        Ok(n) => match refusal_of(n) {
            None => Err(LineCause::Number),
            Some(refusal) => {
                if word == refusal.word().as_bytes() {
                    Ok(refusal)
                } else {
                    Err(LineCause::Count)
                }
            }
        },
        Err(cause) => Err(cause),
    }
}

// `N WORD`
fn refused(tail: &[u8]) -> Result<Reply, LineCause>
    ensures { result ≡ fields.refused (more_words tail.now) }
{
    let Some((number, word)) = two_words(tail) else {
        return Err(LineCause::Count);
    };
    match refusal(number, word) {
        Ok(refusal) => Ok(Reply::Refused(refusal)),
        Err(cause) => Err(cause),
    }
}

// A reply without words behind it.
fn alone(tail: &[u8], reply: Reply) -> Result<Reply, LineCause>
    ensures { result ≡ none (more_words tail.now) reply }
{
    if is_none(tail) {
        Ok(reply)
    } else {
        Err(LineCause::Count)
    }
}

// `N`
fn count(tail: &[u8]) -> Result<Reply, LineCause>
    ensures { result ≡ of_one (λ n. Counted n) (one (more_words tail.now) number64) }
{
    let Some(word) = one_word(tail) else {
        return Err(LineCause::Count);
    };
    match number64(word) {
        Ok(n) => Ok(Reply::Count(n)),
        Err(cause) => Err(cause),
    }
}

// `N`
fn removed(tail: &[u8]) -> Result<Reply, LineCause>
    ensures { result ≡ of_one (λ n. Removed n) (one (more_words tail.now) number8) }
{
    let Some(word) = one_word(tail) else {
        return Err(LineCause::Count);
    };
    match number8(word) {
        Ok(n) => Ok(Reply::Removed(n)),
        Err(cause) => Err(cause),
    }
}

// `V`
fn value(tail: &[u8]) -> Result<Reply, LineCause>
    ensures { result ≡ of_one (λ n. Value n) (one (more_words tail.now) hex64) }
{
    let Some(word) = one_word(tail) else {
        return Err(LineCause::Count);
    };
    match hex64(word) {
        Ok(n) => Ok(Reply::Value(n)),
        Err(cause) => Err(cause),
    }
}

// `XX`
fn vector(tail: &[u8]) -> Result<Reply, LineCause>
    ensures { result ≡ of_one (λ n. Vector n) (one (more_words tail.now) hex8) }
{
    let Some(word) = one_word(tail) else {
        return Err(LineCause::Count);
    };
    match hex8(word) {
        Ok(n) => Ok(Reply::Vector(n)),
        Err(cause) => Err(cause),
    }
}

// `XX`
fn extint(tail: &[u8]) -> Result<Reply, LineCause>
    ensures { result ≡ of_one (λ n. Extint n) (one (more_words tail.now) hex8) }
{
    let Some(word) = one_word(tail) else {
        return Err(LineCause::Count);
    };
    match hex8(word) {
        Ok(n) => Ok(Reply::Extint(n)),
        Err(cause) => Err(cause),
    }
}

// `XX`
fn ended(tail: &[u8]) -> Result<Reply, LineCause>
    ensures { result ≡ of_one (λ n. Ended n) (one (more_words tail.now) hex8) }
{
    let Some(word) = one_word(tail) else {
        return Err(LineCause::Count);
    };
    match hex8(word) {
        Ok(n) => Ok(Reply::Ended(n)),
        Err(cause) => Err(cause),
    }
}

// `N`
fn held(tail: &[u8]) -> Result<Reply, LineCause>
    ensures { result ≡ of_one (λ n. Held n) (one (more_words tail.now) number64) }
{
    let Some(word) = one_word(tail) else {
        return Err(LineCause::Count);
    };
    match number64(word) {
        Ok(n) => Ok(Reply::Held(n)),
        Err(cause) => Err(cause),
    }
}

/// The reply of the words behind an arrow.
pub fn reply(tail: &[u8]) -> Result<Reply, LineCause>
    ensures { result ≡ fields.reply (more_words tail.now) }
{
    let Some((name, tail)) = next_word(tail) else {
        return Err(LineCause::Word);
    };
    if name == b"done".as_slice() {
        alone(tail, Reply::Done)
    } else if name == b"count".as_slice() {
        count(tail)
    } else if name == b"empty".as_slice() {
        alone(tail, Reply::Empty)
    } else if name == b"removed".as_slice() {
        removed(tail)
    } else if name == b"value".as_slice() {
        value(tail)
    } else if name == b"exit".as_slice() {
        alone(tail, Reply::Exit)
    } else if name == b"vector".as_slice() {
        vector(tail)
    } else if name == b"extint".as_slice() {
        extint(tail)
    } else if name == b"nmi".as_slice() {
        alone(tail, Reply::Nmi)
    } else if name == b"ended".as_slice() {
        ended(tail)
    } else if name == b"nothing".as_slice() {
        alone(tail, Reply::Nothing)
    } else if name == b"held".as_slice() {
        held(tail)
    } else if name == b"refused".as_slice() {
        refused(tail)
    } else {
        match status_named(name, tail) {
            Ok(status) => Ok(Reply::Signal(status)),
            Err(cause) => Err(cause),
        }
    }
}
