//! The text of a certificate of the least cost, or that no walk exists.

ghost use Rattle.std.specs.Prelude.{◌≡◌, true, IfOk, MatchResult, Some};
ghost use Rattle.grid_moves.specs.Ends.{AreEnds};
ghost use Rattle.grid_moves.specs.Layers.{in_one_layer, query_grid};
ghost use Rattle.grid_answers.specs.Certificates.{proof_answer, proof_status, why_unproved};
ghost use Rattle.potential_make.specs.Made.{made_certificate};

use crate::NoMemory;
use cell_lines::AskedEnds;
use grid_moves::{Cell, Ends, Layers, Unsearched};
use line_work::{Printed, said};
use potential_make::certificate;
use std::alloc::Global;

// The ends of a query, or the line that says why nothing is proved.
fn proved_ends(layers: &Layers, ends: AskedEnds) -> Result<Ends, &'static [u8]>
    ensures { MatchResult result
        (AreEnds layers.now (record { x = ends.sx; y = ends.sy }) (record { x = ends.gx; y = ends.gy }))
        (λ line. why_unproved layers.now (record { x = ends.sx; y = ends.sy })
        (record { x = ends.gx; y = ends.gy }) ≡ Some line.now) }
{
    match layers.ends(ends.sx, ends.sy, ends.gx, ends.gy) {
        Ok(both) => Ok(both),
        Err(Unsearched::Outside) => Err(b"outside\n"),
        Err(Unsearched::Blocked) => Err(b"blocked\n"),
        Err(Unsearched::Apart(_)) => Err(b"apart\n"),
    }
}

// What is printed for a query between two free cells of one layer.
fn proof_between(alloc: Global, layers: &Layers, from: Cell, to: Cell) -> Result<Printed, NoMemory>
    requires one { in_one_layer layers.now from to ≡ true }
    ensures text { IfOk result (λ p. p.text.items ≡ made_certificate (query_grid layers.now from) from to) }
    ensures status { IfOk result (λ p. p.status ≡ 0) }
{
    let text = certificate(alloc, layers.query_grid(from), from, to)?;
    Ok(Printed { text, status: 0 })
}

/// What is printed for a query: the certificate, or the line that says why there is none.
pub fn proof_of(alloc: Global, layers: &Layers, ends: AskedEnds) -> Result<Printed, NoMemory>
    ensures text { IfOk result
        (λ p. p.text.items ≡ proof_answer layers.now (record { x = ends.sx; y = ends.sy })
        (record { x = ends.gx; y = ends.gy })) }
    ensures status { IfOk result
        (λ p. p.status ≡ proof_status layers.now (record { x = ends.sx; y = ends.sy })
        (record { x = ends.gx; y = ends.gy })) }
{
    match proved_ends(layers, ends) {
        Ok(both) => proof_between(alloc, layers, both.from, both.to),
        Err(line) => said(alloc, line),
    }
}
