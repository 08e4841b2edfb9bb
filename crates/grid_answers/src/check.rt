//! The line of what a certificate proves, or of the first clause that it fails.

ghost use Rattle.std.specs.Prelude.{◌≡◌, ◌++◌, IfOk, OnOk, codes, decimal};
ghost use Rattle.grid_answers.specs.Certificates as spec;
ghost use Rattle.potential_check.specs.Answers.{certificate_answer};
ghost use Rattle.potential_check.specs.Text.{plain};

use crate::NoMemory;
use cell_lines::put_cell;
use grid_moves::{Cell, Grid};
use line_work::Printed;
use potential_check::{Certificate, Proof, Reject};
use std::alloc::Global;
use text_line::{put, put_number};

// Appends two cells, parted by a space.
fn put_move(out: &mut Vec<u8>, u: Cell, v: Cell) -> Result<(), NoMemory>
    ensures { OnOk result (out.new.items ≡ out.old.items ++ spec.move_text u v) }
{
    put_cell(out, u)?;
    put(out, b" ")?;
    put_cell(out, v)
}

// The line of what is proved.
fn proof_line(alloc: Global, proof: Proof) -> Result<Vec<u8>, NoMemory>
    ensures { IfOk result (λ line. line.items ≡ spec.proof_line proof) }
{
    let mut line = Vec::new(alloc);
    match proof {
        Proof::Least(cost) => {
            put(&mut line, b"accepted least ")?;
            put_number(&mut line, u64::from(cost.a))?;
            put(&mut line, b" ")?;
            put_number(&mut line, u64::from(cost.b))?;
            put(&mut line, b"\n")?;
        }
        Proof::NoWalk => put(&mut line, b"accepted none\n")?,
    }
    Ok(line)
}

// The line of a clause that names two cells.
fn move_line(alloc: Global, words: &[u8], u: Cell, v: Cell) -> Result<Vec<u8>, NoMemory>
    ensures { IfOk result (λ line. line.items ≡ words.now ++ spec.move_text u v ++ codes "\n") }
{
    let mut line = Vec::new(alloc);
    put(&mut line, words)?;
    put_move(&mut line, u, v)?;
    put(&mut line, b"\n")?;
    Ok(line)
}

// The line of a clause that names a number.
fn walk_line(alloc: Global, i: u32) -> Result<Vec<u8>, NoMemory>
    ensures { IfOk result (λ line. line.items ≡ codes "refused walk " ++ decimal i ++ codes "\n") }
{
    let mut line = Vec::new(alloc);
    put(&mut line, b"refused walk ")?;
    put_number(&mut line, u64::from(i))?;
    put(&mut line, b"\n")?;
    Ok(line)
}

// The line of the first clause that fails.
fn reject_line(alloc: Global, reject: Reject) -> Result<Vec<u8>, NoMemory>
    ensures { IfOk result (λ line. line.items ≡ spec.reject_line reject) }
{
    match reject {
        Reject::Size => Vec::from_slice(alloc, b"refused size\n"),
        Reject::Ends => Vec::from_slice(alloc, b"refused ends\n"),
        Reject::Walk(i) => walk_line(alloc, i),
        Reject::Start => Vec::from_slice(alloc, b"refused start\n"),
        Reject::Goal => Vec::from_slice(alloc, b"refused goal\n"),
        Reject::Move(u, v) => move_line(alloc, b"refused move ", u, v),
        Reject::Open(u, v) => move_line(alloc, b"refused open ", u, v),
    }
}

/// The line of a certificate on a grid, and the status: by what the certificate comes to, which is right by
/// the laws of potential_check.
pub fn verdict(alloc: Global, grid: &Grid, certificate: &Certificate) -> Result<Printed, NoMemory>
    ensures text { IfOk result (λ p. p.text.items ≡
        spec.verdict_line (certificate_answer grid.now (plain certificate.now))) }
    ensures status { IfOk result (λ p. p.status ≡
        spec.verdict_status (certificate_answer grid.now (plain certificate.now))) }
{
    match potential_check::check(grid, certificate) {
        Ok(proof) => Ok(Printed {
            text: proof_line(alloc, proof)?,
            status: 0,
        }),
        Err(reject) => Ok(Printed {
            text: reject_line(alloc, reject)?,
            status: 1,
        }),
    }
}
