//! The GSIs that are marked: those of a resampler, of a watch, and of the tick.
ghost use Rattle.std.specs.Prelude.{◌≡◌, ℕ, ◌<◌, ◌||◌, length, get_or, false, nat_eq, All};
ghost use Rattle.irqfd_set.specs.Rows.{has_resampler};
ghost use Rattle.ack_notifiers.specs.Rows.{has_watch};
ghost use Rattle.irqfd_set.specs.declared.irqfds.Irqfd.{Irqfd as IrqfdRow};
ghost use Rattle.ack_notifiers.specs.declared.watches.Watch.{Watch as WatchRow};

use ack_notifiers::Watch;
use irqfd_set::Irqfd;

// No GSI is marked.
fn clear(marks: &mut [bool])
    ensures long { length marks.new ≡ length marks.old }
    ensures none { (gsi : ℕ) → gsi < length marks.new → get_or marks.new gsi false ≡ false }
{
    for mark in marks.iter_mut() {
        *mark = false;
    }
}

// Marks the GSIs of the irqfds that have a resample counter.
fn mark_resamplers(marks: &mut [bool], irqfds: &[Irqfd])
    requires range { All (λ (row : IrqfdRow). row.gsi < length marks.old) irqfds.now }
    ensures long { length marks.new ≡ length marks.old }
    ensures marked { (gsi : ℕ) → gsi < length marks.new → get_or marks.new gsi false
        ≡ (get_or marks.old gsi false || has_resampler irqfds.now gsi) }
{
    for row in irqfds {
        marks[row.gsi as usize] |= row.resample.is_some();
    }
}

// Marks the GSIs of the watches.
fn mark_watches(marks: &mut [bool], watches: &[Watch])
    requires range { All (λ (row : WatchRow). row.gsi < length marks.old) watches.now }
    ensures long { length marks.new ≡ length marks.old }
    ensures marked { (gsi : ℕ) → gsi < length marks.new → get_or marks.new gsi false
        ≡ (get_or marks.old gsi false || has_watch watches.now gsi) }
{
    for row in watches {
        marks[row.gsi as usize] = true;
    }
}

/// Marks the GSIs of resamplers, watches and the tick, and no other.
pub fn mark(marks: &mut [bool], irqfds: &[Irqfd], watches: &[Watch], tick: u16)
    requires irqfds { All (λ (row : IrqfdRow). row.gsi < length marks.old) irqfds.now }
    requires watches { All (λ (row : WatchRow). row.gsi < length marks.old) watches.now }
    requires tick { tick < length marks.old }
    ensures long { length marks.new ≡ length marks.old }
    ensures marked { (gsi : ℕ) → gsi < length marks.new → get_or marks.new gsi false
        ≡ (has_resampler irqfds.now gsi || (has_watch watches.now gsi || nat_eq gsi tick)) }
{
    clear(marks);
    mark_resamplers(marks, irqfds);
    mark_watches(marks, watches);
    marks[tick as usize] = true;
}
