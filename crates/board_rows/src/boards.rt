//! Boards at power-on: the limits of a shape, which are this board's own rule, and the board of a board's parts.
ghost use Rattle.std.specs.Prelude.{◌≡◌};

use board_step::{Board, Due, OpenError};
use irq_base::Shape;
use std::alloc::Global;
use std::test::Fail;

/// A shape of the greatest numbers.
const LARGEST: Shape = Shape {
    cpus: 64,
    counters: 256,
    tick: 4095,
    calls: 1 << 40,
    publications: 1 << 20,
};

/// A shape of the least numbers.
const LEAST: Shape = Shape {
    cpus: 1,
    counters: 0,
    tick: 0,
    calls: 1,
    publications: 0,
};

/// The board of a board's own parts.
fn remade(board: Board) -> Board
    ensures { result ≡ board }
{
    let shape = board.shape();
    let length = board.length();
    let publications = board.publications();
    board.keeps_sound();
    let (parts, words) = board.into_parts();
    Board::of_parts(&shape, parts, words, length, publications)
}

/// Whether no board is made, the shape being bad.
fn is_bad(alloc: Global, shape: &Shape) -> bool {
    matches!(Board::power_on(alloc, shape), Err(OpenError::BadShape))
}

#[test]
fn shapes_past_a_limit_have_no_board(rt: HostRuntime) {
    let bad = [
        Shape { cpus: 0, ..LEAST },
        Shape {
            cpus: 65,
            ..LARGEST
        },
        Shape {
            counters: 257,
            ..LARGEST
        },
        Shape {
            tick: 4096,
            ..LARGEST
        },
        Shape { calls: 0, ..LEAST },
        Shape {
            calls: (1 << 40) + 1,
            ..LARGEST
        },
        Shape {
            publications: (1 << 20) + 1,
            ..LARGEST
        },
    ];
    for shape in &bad {
        assert!(rt; is_bad(rt.alloc(), shape));
    }
}

#[test]
fn boards_at_power_on_owe_nothing(rt: HostRuntime) -> Result<(), Fail> {
    for shape in [LEAST, LARGEST] {
        let board = remade(Board::power_on(rt.alloc(), &shape)?);
        assert_eq!(rt; board.shape(), shape);
        assert!(rt; board.length() == 0 && board.publications() == 0);
        assert_eq!(rt; board.due(0), Due::None);
        assert_eq!(rt; board.due(shape.cpus - 1), Due::None);
    }
    Ok(())
}
