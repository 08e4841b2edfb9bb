//! Reading a certificate from its text.

ghost use Rattle.std.specs.Prelude.{◌≡◌, ◌+◌, ◌≤◌, ◌<◌, ◌^◌, IsTrue, length, []};
ghost use Rattle.text_line.specs.Lines.{lines_of};
ghost use Rattle.text_line.specs.Reading.{IsRightReading};
ghost use Rattle.potential_check.specs.Certificate.{are_points, are_sides, is_claim, is_small};
ghost use Rattle.potential_check.specs.Spelling.{Spells};
ghost use Rattle.potential_check.specs.declared.fault.CertFault.TheVariants.{NoMemory};
ghost use Rattle.potential_check.specs.Text.{AreShort, BreaksFirst, Places, Tells, at_claim, at_ends};
ghost use Rattle.potential_check.specs.Text.{at_points, at_size, certificate_of, ended, in_cells, in_values};
ghost use Rattle.potential_check.specs.Text.{is_head, plain, read_left};

use crate::certificate::{Certificate, Claim};
use crate::fault::CertFault;
use crate::forms::{ends_on, least_on, member_on, points_on, size_on, value_on};
use grid_moves::{Cell, number_of};
use path_points::{Cells, Costs, Points};
use root2_cost::Cost;
use std::alloc::Global;
use text_line::Lines;

/// What a certificate is about.
#[derive(Clone, Copy)]
pub(crate) struct Head {
    width: u16,
    height: u16,
    start: Cell,
    goal: Cell,
}

/// The certificate that a text of at most 2^30 bytes spells, or the fault of its first broken line.
///
/// The text is passed over once, and memory is taken for the points and the list alone.
pub fn read_certificate(alloc: Global, text: &[u8]) -> Result<Certificate, CertFault>
    requires { length text.now ≤ 2 ^ 30 }
    // What is read is spelled so, what is spelled so is read, and a fault is that of the first line that
    // breaks the grammar.
    ensures { IsRightReading NoMemory plain (Spells text.now) (BreaksFirst (lines_of text.now))
        (certificate_of text.now) result }
{
    read(alloc, text)
}

// The same, whose clause is the one function of the text.
fn read(alloc: Global, text: &[u8]) -> Result<Certificate, CertFault>
    requires { length text.now ≤ 2 ^ 30 }
    ensures { Tells result (certificate_of text.now) }
{
    let mut lines = Lines::of(text);
    let Some(line) = lines.next() else {
        return Err(CertFault::Line { line: 1 });
    };
    if line.bytes != b"jps-cert 1".as_slice() {
        return Err(CertFault::Line { line: 1 });
    }
    read_size(alloc, lines)
}

// The certificate whose line with the sides is next.
fn read_size(alloc: Global, lines: Lines<'_>) -> Result<Certificate, CertFault>
    requires number { lines.number ≡ 2 }
    requires short { AreShort lines }
    ensures { Tells result (read_left at_size lines.entry) }
{
    let mut lines = lines;
    let Some(line) = lines.next() else {
        return Err(CertFault::Line { line: 2 });
    };
    match size_on(line.bytes) {
        Some((width, height)) => read_ends(alloc, lines, width, height),
        None => Err(CertFault::Line { line: 2 }),
    }
}

// The certificate whose line with start and goal is next.
fn read_ends(
    alloc: Global,
    lines: Lines<'_>,
    width: u16,
    height: u16,
) -> Result<Certificate, CertFault>
    requires number { lines.number ≡ 3 }
    requires short { AreShort lines }
    requires sides { IsTrue (are_sides width height) }
    ensures { Tells result (read_left (at_ends width height) lines.entry) }
{
    let mut lines = lines;
    let Some(line) = lines.next() else {
        return Err(CertFault::Line { line: 3 });
    };
    match ends_on(line.bytes) {
        Some((start, goal)) => {
            let head = Head {
                width,
                height,
                start,
                goal,
            };
            read_claim(alloc, lines, head)
        }
        None => Err(CertFault::Line { line: 3 }),
    }
}

// The certificate whose line with the claim is next.
fn read_claim(alloc: Global, lines: Lines<'_>, head: Head) -> Result<Certificate, CertFault>
    requires number { lines.number ≡ 4 }
    requires short { AreShort lines }
    requires head { IsTrue (is_head head) }
    ensures { Tells result (read_left (at_claim head) lines.entry) }
{
    let mut lines = lines;
    let Some(line) = lines.next() else {
        return Err(CertFault::Line { line: 4 });
    };
    if line.bytes == b"none".as_slice() {
        return read_cells(alloc, lines, head);
    }
    match least_on(line.bytes) {
        Some(cost) => read_points(alloc, lines, head, cost),
        None => Err(CertFault::Line { line: 4 }),
    }
}

// The certificate whose line with the points is next.
fn read_points(
    alloc: Global,
    lines: Lines<'_>,
    head: Head,
    cost: Cost,
) -> Result<Certificate, CertFault>
    requires number { lines.number ≡ 5 }
    requires short { AreShort lines }
    requires head { IsTrue (is_head head) }
    requires cost { IsTrue (is_small cost) }
    ensures { Tells result (read_left (at_points head cost) lines.entry) }
{
    let mut lines = lines;
    let Some(line) = lines.next() else {
        return Err(CertFault::Line { line: 5 });
    };
    match points_on(alloc, line.bytes) {
        Ok(Some(points)) => read_values(alloc, lines, head, cost, points),
        Ok(None) => Err(CertFault::Line { line: 5 }),
        Err(_) => Err(CertFault::NoMemory),
    }
}

// The number of a listed cell, or the fault of its line: it lies outside, or its number is too low.
#[inline(always)]
fn place_of(head: Head, c: Cell, least: u32, line: u32) -> Result<u32, CertFault>
    requires { IsTrue (is_head head) }
    ensures { Places head least line c result }
{
    if c.x >= head.width || c.y >= head.height {
        return Err(CertFault::Line { line });
    }
    let at = number_of(head.width, c);
    if at < least {
        return Err(CertFault::Order { line });
    }
    Ok(at)
}

// The certificate of which the values are next.
fn read_values(
    alloc: Global,
    lines: Lines<'_>,
    head: Head,
    cost: Cost,
    points: Points,
) -> Result<Certificate, CertFault>
    requires number { lines.number ≡ 6 }
    requires short { AreShort lines }
    requires head { IsTrue (is_head head) }
    requires cost { IsTrue (is_small cost) }
    requires points { IsTrue (are_points points) }
    ensures { Tells result (read_left (in_values head cost points 0 []) lines.entry) }
{
    let mut lines = lines;
    let mut values = Costs::new(alloc);
    let mut least = 0;
    let mut number = 6;
    while let Some(line) = lines.next() {
        if line.bytes == b"end".as_slice() {
            let claim = Claim::Least {
                cost,
                points,
                values,
            };
            return read_end(lines, number + 1, certificate(head, claim));
        }
        let Some(entry) = value_on(line.bytes) else {
            return Err(CertFault::Line { line: number });
        };
        let at = place_of(head, entry.0, least, number)?;
        values.push(entry)?;
        least = at + 1;
        number += 1;
    }
    Err(CertFault::Line { line: number })
}

// The certificate of which the cells are next.
fn read_cells(alloc: Global, lines: Lines<'_>, head: Head) -> Result<Certificate, CertFault>
    requires number { lines.number ≡ 5 }
    requires short { AreShort lines }
    requires head { IsTrue (is_head head) }
    ensures { Tells result (read_left (in_cells head 0 []) lines.entry) }
{
    let mut lines = lines;
    let mut cells = Cells::new(alloc);
    let mut least = 0;
    let mut number = 5;
    while let Some(line) = lines.next() {
        if line.bytes == b"end".as_slice() {
            let claim = Claim::NoWalk { cells };
            return read_end(lines, number + 1, certificate(head, claim));
        }
        let Some(cell) = member_on(line.bytes) else {
            return Err(CertFault::Line { line: number });
        };
        let at = place_of(head, cell, least, number)?;
        cells.push(cell)?;
        least = at + 1;
        number += 1;
    }
    Err(CertFault::Line { line: number })
}

// A certificate of these parts.
fn certificate(head: Head, claim: Claim) -> Certificate
    requires head { IsTrue (is_head head) }
    requires claim { IsTrue (is_claim head.width head.height claim) }
    ensures { plain result ≡ record { head = head; claim = claim } }
{
    Certificate {
        width: head.width,
        height: head.height,
        start: head.start,
        goal: head.goal,
        claim,
    }
}

// The certificate, where nothing but empty lines is left; the first of them has this number.
fn read_end(
    lines: Lines<'_>,
    number: u32,
    certificate: Certificate,
) -> Result<Certificate, CertFault>
    requires number { lines.number ≡ number }
    ensures { Tells result (read_left (ended (plain certificate)) lines.entry) }
{
    for line in lines {
        if !line.bytes.is_empty() {
            return Err(CertFault::Line { line: line.number });
        }
    }
    Ok(certificate)
}
