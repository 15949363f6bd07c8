// Processors call and attempt on threads of their own.
use crate::counts::Counts;
use crate::jobs::Job;
use crate::threads::played;
use irq_base::NoMemory;

#[test]
fn two_threads_make_a_thousand_calls_each(rt: HostRuntime) -> Result<(), NoMemory> {
    let (counts, length) = played(&rt, rt.alloc(), 2, &[Job::Calls])?;
    assert!(rt; counts.of == [2000, 0, 0, 0, 0, 0, 0, 0] && length == Some(2000));
    Ok(())
}

// All eight counts together.
fn sum_of(counts: Counts) -> u64 {
    let mut sum = 0u64;
    for count in counts.of.as_slice() {
        sum = sum.saturating_add(*count);
    }
    sum
}

#[test]
fn two_threads_have_as_many_entries_as_answers(rt: HostRuntime) -> Result<(), NoMemory> {
    let (counts, length) = played(&rt, rt.alloc(), 2, &[Job::Attempts])?;
    assert!(rt; counts.of[0] > 0 && length == Some(sum_of(counts)));
    Ok(())
}

#[test]
fn four_threads_have_as_many_entries_as_answers(rt: HostRuntime) -> Result<(), NoMemory> {
    let (counts, length) = played(&rt, rt.alloc(), 4, &[Job::Storm])?;
    let [lines, messages, acks, ends, ..] = counts.of;
    assert!(rt; lines > 0 && messages > 0 && acks > 0 && ends > 0);
    assert!(rt; length == Some(sum_of(counts)));
    Ok(())
}

#[test]
fn a_reader_beside_reroutes_is_told_one_of_both_tables(rt: HostRuntime) -> Result<(), NoMemory> {
    let (counts, length) = played(&rt, rt.alloc(), 2, &[Job::FirstTable, Job::Routes])?;
    let [tables, right, wrong, moved, ..] = counts.of;
    assert!(rt; tables == 1001 && length == Some(1001));
    assert!(rt; wrong == 0 && right > 0 && right.saturating_add(moved) == 10_000);
    Ok(())
}

#[test]
fn each_vector_is_taken_as_often_as_it_was_newly_delivered(
    rt: HostRuntime,
) -> Result<(), NoMemory> {
    let jobs = [Job::Enable, Job::Exchange, Job::Drain];
    let (counts, length) = played(&rt, rt.alloc(), 4, &jobs)?;
    let [first, second, third, fourth, ..] = counts.of;
    assert!(rt; first > 0 && second > 0 && third > 0 && fourth > 0);
    let [.., a, b, c, d] = counts.of;
    assert!(rt; [first, second, third, fourth] == [a, b, c, d]);
    assert!(rt; length.is_some());
    Ok(())
}
