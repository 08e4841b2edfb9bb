//! Certificates of small maps, each with one change.

use grid_moves::{Cell, Corner, Grid};
use potential_check::*;
use root2_cost::Cost;
use std::alloc::{AllocError, Global};
use std::test::*;
use text_line::put;

// The lines of a certificate that a walk round the pillar of `.../.@./...` is least; in place of line `at`,
// from 1, stands this one, or none where it is empty.
fn changed(alloc: Global, at: u32, line: &[u8]) -> Result<Vec<u8>, AllocError> {
    let mut text = Vec::new(alloc);
    for (number, given) in [
        (1, b"jps-cert 1".as_slice()),
        (2, b"size 3 3"),
        (3, b"ends 0 0 2 2"),
        (4, b"least 4 0"),
        (5, b"points 0,0 2,0 2,2"),
        (6, b"value 0 0 0 0"),
        (7, b"value 1 0 1 0"),
        (8, b"value 0 1 1 0"),
        (9, b"end"),
    ] {
        let shown = if number == at { line } else { given };
        if !shown.is_empty() {
            put(&mut text, shown)?;
            put(&mut text, b"\n")?;
        }
    }
    Ok(text)
}

// What is read of a text of at most 1000 bytes, and checked on a grid.
fn judged(alloc: Global, grid: &Grid, text: &[u8]) -> Result<Result<Proof, Reject>, CertFault> {
    if text.len() > 1000 {
        return Err(CertFault::NoMemory);
    }
    let certificate = read_certificate(alloc, text)?;
    Ok(check(grid, &certificate))
}

fn cell(x: u16, y: u16) -> Cell {
    Cell { x, y }
}

// Each change and its answer were found by hand.
#[test]
fn each_change_has_its_answer(rt: HostRuntime) -> Result<(), Fail> {
    let grid = Grid::of_cells(rt.alloc(), 3, 3, b"....@....", Corner::Never)?;
    let (end, corner) = (b"value 2 2 1 0\nend".as_slice(), cell(0, 0));
    for (at, line, answer) in [
        (
            9,
            b"end".as_slice(),
            Ok(Ok(Proof::Least(Cost { a: 4, b: 0 }))),
        ),
        (2, b"size 3 4", Ok(Err(Reject::Size))),
        (3, b"ends 9 9 2 2", Ok(Err(Reject::Ends))),
        (5, b"points 9,9", Ok(Err(Reject::Walk(0)))),
        (5, b"points 0,0 0,0", Ok(Err(Reject::Walk(1)))),
        (4, b"least 3 0", Ok(Err(Reject::Walk(3)))),
        (4, b"least 999999999 999999999", Ok(Err(Reject::Walk(3)))),
        (6, b"value 0 0 1 0", Ok(Err(Reject::Start))),
        (9, end, Ok(Err(Reject::Goal))),
        (
            7,
            b"value 1 0 2 0",
            Ok(Err(Reject::Move(corner, cell(1, 0)))),
        ),
        (7, b"value 0 1 1 0", Err(CertFault::Order { line: 8 })),
        (9, b"", Err(CertFault::Line { line: 9 })),
        (6, b"", Ok(Err(Reject::Start))),
        (7, b"", Ok(Err(Reject::Move(corner, cell(1, 0))))),
        (8, b"", Ok(Err(Reject::Move(corner, cell(0, 1))))),
        (
            9,
            b"value 2 1 4 0\nend",
            Ok(Err(Reject::Move(cell(2, 0), cell(2, 1)))),
        ),
    ] {
        let text = changed(rt.alloc(), at, line)?;
        let ruling = judged(rt.alloc(), &grid, &text);
        assert_eq!(rt; ruling, answer, "line {at}");
    }
    Ok(())
}

#[test]
fn cells_that_can_be_left_prove_nothing(rt: HostRuntime) -> Result<(), Fail> {
    let closed = Grid::of_cells(rt.alloc(), 2, 2, b".@@.", Corner::Never)?;
    let open = Grid::of_cells(rt.alloc(), 2, 2, b"..@.", Corner::Never)?;
    let listed = b"jps-cert 1\nsize 2 2\nends 0 0 1 1\nnone\nin 0 0\nend\n".as_slice();
    let none = b"jps-cert 1\nsize 2 2\nends 0 0 1 1\nnone\nend\n".as_slice();
    assert_eq!(rt; judged(rt.alloc(), &closed, listed), Ok(Ok(Proof::NoWalk)));
    assert_eq!(rt; judged(rt.alloc(), &closed, none), Ok(Err(Reject::Start)));
    let way_out = Reject::Open(cell(0, 0), cell(1, 0));
    assert_eq!(rt; judged(rt.alloc(), &open, listed), Ok(Err(way_out)));
    Ok(())
}
