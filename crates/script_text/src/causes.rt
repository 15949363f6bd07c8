//! Causes of bad lines, in their order.
ghost use Rattle.std.specs.Prelude.{◌≡◌, Ok, IfOk};
ghost use Rattle.std.specs.declared.result.Result.{Result};
ghost use Rattle.irq_base.specs.declared.fault.LineCause.{LineCause};
ghost use Rattle.script_text.specs.Causes.{order_of, first_of, both, all_three, all_five, Says};

use irq_base::LineCause;

/// Why a line is not read: it is bad by that cause, or memory ran out.
#[derive(Clone, Copy, Debug, PartialEq, Eq)]
pub enum LineFault {
    Bad(LineCause),
    NoMemory,
}

// The order in which causes are tried.
fn order_of(cause: LineCause) -> u8
    ensures { result ≡ order_of cause }
{
    match cause {
        LineCause::Cut => 0,
        LineCause::Char => 1,
        LineCause::End => 2,
        LineCause::Word => 3,
        LineCause::Count => 4,
        LineCause::Number => 5,
        LineCause::Actor => 6,
    }
}

// The first of two causes.
fn first_of(a: LineCause, b: LineCause) -> LineCause
    ensures { result ≡ first_of a b }
{
    if order_of(a) <= order_of(b) { a } else { b }
}

/// Both fields; where both are wrong, the first of their causes.
pub fn both<A: Drop, B: Drop>(
    a: Result<A, LineCause>,
    b: Result<B, LineCause>,
) -> Result<(A, B), LineCause>
    ensures { result ≡ both a b }
{
    match (a, b) {
        (Ok(a), Ok(b)) => Ok((a, b)),
        (Ok(_), Err(e)) => Err(e),
        (Err(d), Ok(_)) => Err(d),
        (Err(d), Err(e)) => Err(first_of(d, e)),
    }
}

/// Three fields; where several are wrong, the first of their causes.
pub fn all_three<A: Drop, B: Drop, C: Drop>(
    a: Result<A, LineCause>,
    b: Result<B, LineCause>,
    c: Result<C, LineCause>,
) -> Result<(A, B, C), LineCause>
    ensures { result ≡ all_three a b c }
{
    match both(both(a, b), c) {
        Ok(((a, b), c)) => Ok((a, b, c)),
        Err(cause) => Err(cause),
    }
}

// Five fields.
pub fn all_five<A: Drop, B: Drop, C: Drop, D: Drop, E: Drop>(
    a: Result<A, LineCause>,
    b: Result<B, LineCause>,
    c: Result<C, LineCause>,
    d: Result<D, LineCause>,
    e: Result<E, LineCause>,
) -> Result<(A, B, C, D, E), LineCause>
    ensures { result ≡ all_five a b c d e }
{
    match all_three(all_three(a, b, c), d, e) {
        Ok(((a, b, c), d, e)) => Ok((a, b, c, d, e)),
        Err(cause) => Err(cause),
    }
}

/// Both fields, the second of which takes memory; where both are wrong, the first of their causes.
pub fn both_in_memory<A: Drop, B: Drop>(
    a: Result<A, LineCause>,
    b: Result<B, LineFault>,
) -> Result<(A, B), LineFault>
    ensures value { (read : Result B LineCause) → Says b read → Says result (both a read) }
    ensures fields { IfOk result (λ w. (a ≡ Ok w.0) × (b ≡ Ok w.1)) }
{
    match (a, b) {
        (_, Err(LineFault::NoMemory)) => Err(LineFault::NoMemory),
        (Ok(a), Ok(b)) => Ok((a, b)),
        (Ok(_), Err(LineFault::Bad(e))) => Err(LineFault::Bad(e)),
        (Err(d), Ok(_)) => Err(LineFault::Bad(d)),
        (Err(d), Err(LineFault::Bad(e))) => Err(LineFault::Bad(first_of(d, e))),
    }
}

/// A field that takes no memory, beside those that do.
pub fn or_bad<A: Drop>(read: Result<A, LineCause>) -> Result<A, LineFault>
    ensures { Says result read }
{
    match read {
        Ok(value) => Ok(value),
        Err(cause) => Err(LineFault::Bad(cause)),
    }
}
