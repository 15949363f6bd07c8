//! A tie of least priority (SDM volume 3, lowest priority delivery), which is for the rig to decide.
use board_raise::{BoardRig, send};
use irq_base::{Message, Mode, Status};
use irq_bits::CpuSet;
use row_table::board_after;
use std::test::Fail;

// Three processors, of which the last two tie.
fn tied() -> &'static str {
    "
    cpus 3
    cpu0 store fee000f0 4 000001ff -> done
    cpu1 store fee000f0 4 000001ff -> done
    cpu2 store fee000f0 4 000001ff -> done
    cpu0 store fee00080 4 00000020 -> done
    cpu1 store fee00080 4 00000010 -> done
    cpu2 store fee00080 4 00000010 -> done
    "
}

// A request that is new at these processors.
fn delivered(new: u64) -> Status {
    Status::Delivered {
        new: CpuSet::of_bits(new),
        stood: CpuSet::empty(),
        pic: false,
    }
}

// The processor that is wished for takes the request, and then, with no wish, the first does.
#[test]
fn ties_are_wished_for(rt: HostRuntime) -> Result<(), Fail> {
    let Some(board) = board_after(rt.alloc(), tied())? else {
        return Err(Fail::new("no board"));
    };
    let shape = board.shape();
    let (parts, words) = board.into_parts();
    let message = Message {
        mode: Mode::Lowest,
        logical: false,
        dest: 0xff,
        vector: 0x62,
        level: false,
    };
    let mut rig = BoardRig::new(parts, words);
    rig.wish_for(&[CpuSet::of_bits(0b101)]);
    assert_eq!(rt;
        send(&mut rig, shape.cpus, &message, None),
        Ok(delivered(0b100))
    );
    assert_eq!(rt;
        send(&mut rig, shape.cpus, &message, None),
        Ok(delivered(0b10))
    );
    Ok(())
}
