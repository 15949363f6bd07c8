//! What the drawn lines ask.
ghost use Rattle.std.specs.Prelude.{◌≡◌, ◌<◌, ◌≤◌, ◌%◌, IfOk};
ghost use Rattle.rand_pcg.specs.Pcg.{pcg32};
ghost use Rattle.workload_gen.specs.Workload.{message_address, message, processor_call, device_call, actor, drawn, call_of};
ghost use Rattle.irq_bits.specs.declared.limits.TheConstants.{MAX_CPUS};

use crate::setting_up::rerouting;
use irq_base::{Call, Caller, NoMemory};
use rand_core::utils::NextWord;
use rand_pcg::Pcg32;
use std::alloc::Global;

/// The address of a message to processor n, by its physical number.
pub fn message_address(n: u32) -> u64
    ensures { result ≡ message_address n }
{
    0xfee0_0000 + 0x1000 * u64::from(n)
}

// A message of a draw.
fn message(cpus: u16, x: u32) -> Call
    requires some { 1 ≤ cpus }
    ensures { result ≡ message cpus x }
{
    Call::Msi {
        address: message_address(x % u32::from(cpus)),
        payload: 32 + x / 65536 % 200,
    }
}

// What a processor asks, by a draw of 0 to 3.
fn processor_call(draws: &mut Pcg32, cpus: u16, r: u32) -> Call
    requires some { 1 ≤ cpus }
    ensures call { result ≡ (processor_call cpus r draws.old).0 }
    ensures draws { draws.new ≡ (processor_call cpus r draws.old).1 }
{
    match r {
        0 => Call::Ack,
        1 => Call::Eoi,
        2 => message(cpus, draws.next_word()),
        _ => Call::Load {
            address: 0xfee0_00a0,
            len: 4,
        },
    }
}

// What a device asks, by a draw of 0 to 3.
fn device_call(draws: &mut Pcg32, cpus: u16, r: u32) -> Call
    requires some { 1 ≤ cpus }
    ensures call { result ≡ (device_call cpus r draws.old).0 }
    ensures draws { draws.new ≡ (device_call cpus r draws.old).1 }
{
    let x = draws.next_word();
    match r {
        0 => message(cpus, x),
        1 => Call::Write {
            counter: (x % 16) as u16,
            n: 1,
        },
        2 => Call::Take {
            counter: (x % 16) as u16,
        },
        _ => Call::Line {
            gsi: 24 + (x % 8) as u16,
            line: 0,
            high: true,
        },
    }
}

/// The actor of line k: the processors, and then devices 0 and 1, in turn.
pub fn actor(cpus: u16, k: u32) -> Caller
    requires few { cpus ≤ MAX_CPUS }
    ensures { result ≡ actor cpus k }
{
    let a = (k % (u32::from(cpus) + 2)) as u16;
    if a < cpus {
        Caller::Cpu(a)
    } else {
        Caller::Device(a - cpus)
    }
}

// What an actor asks by its draws.
fn call_of(draws: &mut Pcg32, caller: Caller, cpus: u16) -> Call
    requires some { 1 ≤ cpus }
    ensures call { result ≡ (call_of caller cpus ((pcg32 draws.old).0 % 4) (pcg32 draws.old).1).0 }
    ensures draws { draws.new ≡ (call_of caller cpus ((pcg32 draws.old).0 % 4) (pcg32 draws.old).1).1 }
{
    let r = draws.next_word() % 4;
    match caller {
        Caller::Cpu(_) => processor_call(draws, cpus, r),
        Caller::Device(_) => device_call(draws, cpus, r),
    }
}

/// What line k asks. Every thousandth line reroutes and draws nothing.
pub fn drawn(alloc: Global, draws: &mut Pcg32, cpus: u16, k: u32) -> Result<Call, NoMemory>
    requires some { 1 ≤ cpus }
    requires few { cpus ≤ MAX_CPUS }
    requires line { k < 400000 }
    ensures call { IfOk result (λ call. call ≡ (drawn cpus k draws.old).0) }
    ensures draws { draws.new ≡ (drawn cpus k draws.old).1 }
{
    if k % 1000 == 999 {
        return rerouting(alloc, cpus, (k + 1) / 1000);
    }
    Ok(call_of(draws, actor(cpus, k), cpus))
}
