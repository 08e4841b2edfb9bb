//! Work on what was read, and the one place that does it.

ghost use Rattle.std.specs.Prelude.{OnOk};
ghost use Rattle.jps_run.specs.Works.{CanPerform, HasRisen, IsWhole};
ghost use Rattle.line_work.specs.Sending.{SendsWhole};

use crate::replies::{
    Answers, Canvas, Judge, Scen, Summary, write_answers, write_drawing, write_rows, write_rulings,
    write_sums,
};
use cell_lines::AskedEnds;
use grid_answers::{CostLines, TableFile, write_costs, write_file};
use io_edge::Sink;
use line_work::{Stop, send_text};
use scen_maker::{Lengths, write_lengths};
use scen_text::Entry;
use script_text::ScriptCommand;
use std::alloc::Global;
use std::sync::ledger::Ledger;
use steps::Steps;
use word_list::Show;

/// Work whose output is settled by what was read.
#[derive(Drop)]
pub enum Work {
    /// The session answers the commands, a line each.
    Answer {
        job: Answers,
        commands: Vec<ScriptCommand>,
    },
    /// The entries of a scenario are judged by the one who answers, a row each, and their sum.
    Scen {
        job: Scen,
        entries: Vec<Entry>,
    },
    /// The entries of a scenario are written again with their least lengths, below the first line.
    Lengths {
        job: Lengths,
        entries: Vec<Entry>,
    },
    /// What another program tells of the entries of a scenario is judged, a row each, and their sum.
    Judge {
        job: Judge,
        entries: Vec<Entry>,
    },
    /// What the commands come to is summed up in one line.
    Drill {
        job: Summary,
        commands: Vec<ScriptCommand>,
    },
    /// The session searches a query, and a picture of it and of the map is drawn.
    Draw {
        canvas: Canvas,
        ends: AskedEnds,
        show: Show,
    },
    /// The least costs from a cell are printed.
    Costs(CostLines),
    /// The tables of a map are printed as a table file.
    Tables(TableFile),
    /// A text that was made whole, and the status.
    Print {
        text: Vec<u8>,
        status: u8,
    },
    /// A text of the program's own, with status 0.
    Say(&'static [u8]),
}

/// Does the work, and gives the status.
pub fn perform<O: Sink, L: Ledger>(
    alloc: Global,
    work: Work,
    out: &mut O,
    steps: &mut Steps<L>,
) -> Result<u8, Stop>
    requires { CanPerform work }
    ensures sent { SendsWhole (IsWhole work) (O.outflow out.old) (O.outflow out.new) result }
    ensures counted { OnOk result (HasRisen work steps.old steps.new) }
{
    match work {
        Work::Answer { job, commands } => write_answers(alloc, job, commands, out, steps),
        Work::Scen { job, entries } => write_rows(alloc, job, entries, out, steps),
        Work::Lengths { job, entries } => write_lengths(alloc, job, entries, out, steps),
        Work::Judge { job, entries } => write_rulings(alloc, job, entries, out, steps),
        Work::Drill { job, commands } => write_sums(alloc, job, commands, out, steps),
        Work::Draw {
            mut canvas,
            ends,
            show,
        } => write_drawing(alloc, &mut canvas, ends, show, out, steps),
        Work::Costs(mut lines) => write_costs(alloc, &mut lines, out, steps),
        Work::Tables(mut file) => write_file(&mut file, out),
        Work::Print { text, status } => send_text(out, text.as_slice(), status),
        Work::Say(text) => send_text(out, text, 0),
    }
}
