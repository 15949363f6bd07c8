//! Histories counted.
ghost use Rattle.std.specs.Prelude.{◌≡◌, ◌+◌, ◌-◌, ◌^◌, ◌<◌, ◌++◌, if◌then◌else◌, OnOk};
ghost use Rattle.std.specs.String.{string_bytes};
ghost use Rattle.workload_sum.specs.Counts.{is_of, counted, count_line, summary_text};

use crate::kind::Kind;
use irq_base::{History, Reply};
use std::alloc::AllocError;
use std::fmt::Write;

// One more, where the reply is of that kind.
fn one_more(count: usize, kind: Kind, reply: Reply) -> usize
    requires { count < 2 ^ 64 - 1 }
    ensures { result ≡ count + (if is_of kind reply then 1 else 0) }
{
    if kind.is_of(reply) { count + 1 } else { count }
}

// How many entries have a reply of that kind.
fn counted(history: &History, kind: Kind) -> usize
    ensures { result ≡ counted kind history.now }
{
    let mut count = 0;
    'entries: for k in 0..history.len() {
        count = one_more(count, kind, history.at(k).reply);
    }
    count
}

// Puts a word and a number, as a line, at the end.
fn push_count(text: &mut String, word: &str, count: usize) -> Result<(), AllocError>
    ensures { OnOk result (string_bytes text.new ≡ string_bytes text.old ++ count_line word.now count) }
{
    text.push_str(word)?;
    write!(text, " {count}\n")
}

/// Puts the eight lines of a history at the end.
#[tactic(auto, using(crate::proofs::CountLines::line_rules))]
pub fn push_summary(text: &mut String, history: &History) -> Result<(), AllocError>
    ensures { OnOk result (string_bytes text.new ≡ string_bytes text.old ++ summary_text history.now) }
{
    push_count(text, "calls", history.len())?;
    push_count(text, "delivered", counted(history, Kind::Delivered))?;
    push_count(text, "coalesced", counted(history, Kind::Coalesced))?;
    push_count(text, "ignored", counted(history, Kind::Ignored))?;
    push_count(text, "vectors", counted(history, Kind::Vectors))?;
    push_count(text, "ended", counted(history, Kind::Ended))?;
    push_count(text, "taken", counted(history, Kind::Taken))?;
    push_count(text, "refused", counted(history, Kind::Refused))
}
