//! A message is sent to the local APICs of a row: which processors it names, which of them it reaches, and how they accept it
//! (SDM volume 3, determining IPI destination, lowest priority delivery).
ghost use Rattle.std.specs.Prelude.{◌≡◌, ℕ, ◌<◌, ◌≤◌, false, ◌||◌, List, length, Some, None, IfOk, IfSome, IsTrue, MatchOption, MatchResult};
ghost use Rattle.std.specs.FinSet as set;
ghost use Rattle.std.specs.Option.{option_map};
ghost use Rattle.irq_bits.specs.Members.{IsLeast};
ghost use Rattle.irq_base.specs.declared.shape.Part.TheVariants.{Lapic};
ghost use Rattle.lapic.specs.Messages.{is_taken, is_nmi};
ghost use Rattle.board_model.specs.Following.{reached};
ghost use Rattle.board_raise.specs.Named.{Processor, numbers_of, lowest_of, chosen_of, preferred};
ghost use Rattle.board_raise.specs.Send.{reached_by, only, is_illegal};
ghost use Rattle.board_raise.specs.OnRow.{apic_in, first_missing, accepted_by, named_in, sent_in};
ghost use Rattle.board_raise.specs.RowSteps.{numbers_between, Ascends, is_addressed_as, goes_to_lowest, priority_named, with_named, naming_of, sent_of, with_answer, reached_after};

use crate::lacks::Lacks;
use crate::row::LapicRow;
use dest_match::{BROADCAST, matches};
use irq_base::{DestView, Message, Mode, Part};
use irq_bits::{CpuSet, MAX_CPUS};
use lapic::{Accepted, Shorthand};

/// The processors that a message names, and those of them with the least processor priority.
#[derive(Clone, Copy)]
pub struct Named {
    pub all: CpuSet,
    pub lowest: CpuSet,
}

/// The processors that a message reached: those whose request is new, and those where it stood before.
#[derive(Clone, Copy)]
pub struct Reached {
    pub new: CpuSet,
    pub stood: CpuSet,
}

// The processors whose local APICs a message looks at, from the first up to the end.
#[derive(Clone, Copy)]
struct Reach {
    first: u16,
    end: u16,
}

// The processors that are named so far, those of them with the least priority, and that priority.
#[derive(Clone, Copy)]
struct Naming {
    all: CpuSet,
    lowest: CpuSet,
    least: u8,
}

/// The processors that the message names, all local APICs that it looks at being in hand; else the first that is not.
pub fn name_processors(
    row: &LapicRow,
    cpus: u16,
    message: &Message,
    from: Option<(u16, Shorthand)>,
) -> Result<Named, Lacks>
    requires few_cpus { cpus ≤ MAX_CPUS }
    requires places { length row.now ≡ cpus }
    ensures lacking { MatchResult result (λ _. first_missing row.now (reached_by message.now from cpus) ≡ None)
        (λ l. option_map Lapic (first_missing row.now (reached_by message.now from cpus)) ≡ Some l.part) }
    ensures named { IfOk result (λ n. n.all ≡ numbers_of (named_in row.now (reached_by message.now from cpus) message.now from)) }
    ensures lowest { IfOk result
        (λ n. n.lowest ≡ numbers_of (lowest_of (named_in row.now (reached_by message.now from cpus) message.now from))) }
{
    let reach = reach_of(message, from, cpus);
    match first_lacking(row, reach) {
        Some(n) => Err(Lacks {
            part: Part::Lapic(n),
        }),
        None => {
            let Naming { all, lowest, .. } = name_each(row, reach, message, from);
            Ok(Named { all, lowest })
        }
    }
}

/// Each named processor records that it was sent an illegal vector.
pub fn record_illegal(
    row: &mut LapicRow,
    cpus: u16,
    message: &Message,
    from: Option<(u16, Shorthand)>,
    named: &Named,
)
    requires few_cpus { cpus ≤ MAX_CPUS }
    requires places { length row.old ≡ cpus }
    requires taken { IsTrue (is_taken message.now.mode) }
    ensures { row.new ≡ accepted_by message.now named.now.all (reached_by message.now from cpus) row.old }
{
    let reach = reach_of(message, from, cpus);
    let _reached = accept_each(row, reach, message, &named.all);
}

/// The chosen ones of the named processors accept the message; the wish tells which of those with the least priority is to be
/// chosen, where one is.
pub fn deliver(
    row: &mut LapicRow,
    cpus: u16,
    message: &Message,
    from: Option<(u16, Shorthand)>,
    named: &Named,
    wish: &CpuSet,
) -> Reached
    requires few_cpus { cpus ≤ MAX_CPUS }
    requires places { length row.old ≡ cpus }
    requires taken { IsTrue (is_taken message.now.mode) }
    requires legal { is_illegal message.now ≡ false }
    requires named { named.now.all ≡ numbers_of (named_in row.old (reached_by message.now from cpus) message.now from) }
    requires lowest { named.now.lowest ≡ numbers_of (lowest_of (named_in row.old (reached_by message.now from cpus) message.now from)) }
    ensures sent { sent_of result ≡ sent_in row.old (reached_by message.now from cpus) message.now from wish.now }
    ensures row { row.new ≡ accepted_by message.now (reached (sent_in row.old (reached_by message.now from cpus) message.now from wish.now))
        (reached_by message.now from cpus) row.old }
{
    let reach = reach_of(message, from, cpus);
    let takers = chosen(message.mode, named, wish);
    accept_each(row, reach, message, &takers)
}

// Which local APICs the message looks at.
#[tactic(auto, using(crate::proofs::Between::reach_rules))]
fn reach_of(message: &Message, from: Option<(u16, Shorthand)>, cpus: u16) -> Reach
    ensures numbers { numbers_between result.first result.end ≡ reached_by message.now from cpus }
    ensures order { result.first ≤ result.end }
    ensures end { result.end ≤ cpus }
{
    match from {
        Some((sender, Shorthand::OwnOnly)) => only(sender as u32, cpus),
        Some((_, Shorthand::All | Shorthand::Others)) => Reach {
            first: 0,
            end: cpus,
        },
        _ => {
            if message.logical || message.dest == BROADCAST {
                Reach {
                    first: 0,
                    end: cpus,
                }
            } else {
                only(message.dest, cpus)
            }
        }
    }
}

// The processor of that number alone, if there is one.
#[tactic(auto, using(crate::proofs::Between::reach_rules))]
fn only(n: u32, cpus: u16) -> Reach
    ensures numbers { numbers_between result.first result.end ≡ only n cpus }
    ensures order { result.first ≤ result.end }
    ensures end { result.end ≤ cpus }
{
    if n < cpus as u32 {
        let first = n as u16;
        Reach {
            first,
            end: first + 1,
        }
    } else {
        Reach { first: 0, end: 0 }
    }
}

// The first processor whose local APIC is not in hand.
fn first_lacking(row: &LapicRow, reach: Reach) -> Option<u16>
    requires { reach.end ≤ length row.now }
    ensures { result ≡ first_missing row.now (numbers_between reach.first reach.end) }
{
    for n in reach.first..reach.end {
        if !row.holds(n) {
            return Some(n);
        }
    }
    None
}

// The named processors.
fn name_each(
    row: &LapicRow,
    reach: Reach,
    message: &Message,
    from: Option<(u16, Shorthand)>,
) -> Naming
    requires order { reach.first ≤ reach.end }
    requires places { reach.end ≤ length row.now }
    requires few { reach.end ≤ MAX_CPUS }
    ensures all { result.all ≡ numbers_of (named_in row.now (numbers_between reach.first reach.end) message.now from) }
    ensures lowest { result.lowest ≡ numbers_of (lowest_of (named_in row.now (numbers_between reach.first reach.end) message.now from)) }
{
    let mut naming = Naming {
        all: CpuSet::empty(),
        lowest: CpuSet::empty(),
        least: u8::MAX,
    };
    for n in (reach.first..reach.end).rev() {
        if let Some(priority) = priority_if_named(row, n, message, from) {
            naming.add(n, priority);
        }
    }
    naming
}

// The processor's priority, if the message names it.
fn priority_if_named(
    row: &LapicRow,
    n: u16,
    message: &Message,
    from: Option<(u16, Shorthand)>,
) -> Option<u8>
    requires { n < length row.now }
    ensures priority { result ≡ priority_named n (apic_in row.now n) message.now from }
    ensures range { IfSome result (λ p. p < 256) }
{
    match row.at(n) {
        None => None,
        Some(lapic) => {
            let view = lapic.dest_view();
            if is_addressed(&view, n, message, from) && does_hear(&view, message) {
                Some(view.ppr)
            } else {
                None
            }
        }
    }
}

// Whether the destination matches the processor, or the shorthand tells it.
fn is_addressed(view: &DestView, n: u16, message: &Message, from: Option<(u16, Shorthand)>) -> bool
    ensures { result ≡ is_addressed_as view.now n message.now from }
{
    match from {
        Some((sender, Shorthand::OwnOnly)) => n == sender,
        Some((_, Shorthand::All)) => true,
        Some((sender, Shorthand::Others)) => n != sender,
        _ => matches(view, message),
    }
}

// Whether the local APIC hears the message: an NMI always, any other while it is enabled.
fn does_hear(view: &DestView, message: &Message) -> bool
    ensures { result ≡ (is_nmi message.now.mode || view.now.enabled) }
{
    matches!(message.mode, Mode::Nmi) || view.enabled
}

impl Naming {
    // One more processor is named, with that priority.
    fn add(&mut self, n: u16, priority: u8)
        requires { n < MAX_CPUS }
        ensures { self.new ≡ with_named self.old n priority }
    {
        self.all.insert(n);
        if priority < self.least {
            self.lowest = alone(n);
            self.least = priority;
        } else if priority == self.least {
            self.lowest.insert(n);
        }
    }
}

// The set with that number alone.
fn alone(n: u16) -> CpuSet
    requires { n < MAX_CPUS }
    ensures { result ≡ set.insert set.empty n }
{
    let mut set = CpuSet::empty();
    set.insert(n);
    set
}

// The chosen ones of the named processors: one of those with the least priority for a message sent to the lowest, else all.
fn chosen(mode: Mode, named: &Named, wish: &CpuSet) -> CpuSet
    requires { (k : ℕ) → IsTrue (set.contains named.now.lowest k) → k < MAX_CPUS }
    ensures { (ps : List Processor) → Ascends ps → named.now.all ≡ numbers_of ps → named.now.lowest ≡ numbers_of (lowest_of ps) →
        result ≡ numbers_of (chosen_of mode wish.now ps) }
{
    if goes_to_lowest(mode) {
        preferred(&named.lowest, wish)
    } else {
        named.all
    }
}

// Whether the message goes to one processor of lowest priority.
fn goes_to_lowest(mode: Mode) -> bool
    ensures { result ≡ goes_to_lowest mode }
{
    matches!(mode, Mode::Lowest)
}

// The first that is wished for, else the first, alone.
fn preferred(lowest: &CpuSet, wish: &CpuSet) -> CpuSet
    requires { (k : ℕ) → IsTrue (set.contains lowest.now k) → k < MAX_CPUS }
    ensures { (ps : List Processor) → Ascends ps → lowest.now ≡ numbers_of ps → result ≡ numbers_of (preferred wish.now ps) }
{
    match first_common(lowest, wish) {
        Some(n) => alone(n),
        None => match lowest.least() {
            Some(n) => alone(n),
            None => CpuSet::empty(),
        },
    }
}

// The least number that is in both sets.
fn first_common(one: &CpuSet, other: &CpuSet) -> Option<u16>
    requires { (k : ℕ) → IsTrue (set.contains one.now k) → k < MAX_CPUS }
    ensures least { MatchOption result (set.intersection one.now other.now ≡ set.empty) (IsLeast (set.intersection one.now other.now)) }
    ensures range { IfSome result (λ n. n < MAX_CPUS) }
{
    if other.is_empty() {
        return None;
    }
    for n in 0..MAX_CPUS {
        if one.has(n) && other.has(n) {
            return Some(n);
        }
    }
    None
}

// Each of these processors accepts the message.
fn accept_each(row: &mut LapicRow, reach: Reach, message: &Message, takers: &CpuSet) -> Reached
    requires places { reach.end ≤ length row.old }
    requires few { reach.end ≤ MAX_CPUS }
    requires taken { IsTrue (is_taken message.now.mode) }
    ensures reached { result ≡ reached_after message.now takers.now (numbers_between reach.first reach.end) row.old
        (record { new = set.empty; stood = set.empty }) }
    ensures row { row.new ≡ accepted_by message.now takers.now (numbers_between reach.first reach.end) row.old }
{
    let mut reached = Reached {
        new: CpuSet::empty(),
        stood: CpuSet::empty(),
    };
    for n in reach.first..reach.end {
        if takers.has(n) {
            reached.add(n, row.accept_at(n, message));
        }
    }
    reached
}

impl Reached {
    // One more processor has answered.
    fn add(&mut self, n: u16, answer: Option<Accepted>)
        requires { n < MAX_CPUS }
        ensures { self.exit.now ≡ with_answer self.entry.now n answer }
    {
        match answer {
            None => {}
            Some(Accepted::Stood) => self.stood.insert(n),
            Some(_) => self.new.insert(n),
        }
    }
}
