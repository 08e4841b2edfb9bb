//! The one loop over the items of a command.

ghost use Rattle.std.specs.Prelude.{◌≡◌, ℕ, Bool, true, List, [], ◌∷◌, ◌++◌, ◌+◌, length, slice_get, Some};
ghost use Rattle.std.specs.Prelude.{OnOk, OnErr, IfOk};
ghost use Rattle.line_work.specs.Sending.{HasHead, SendsWhole};
ghost use Rattle.line_work.specs.Working.{Adds, CanComplete, CountsMore, HasRoomForOne, WorksMore};

use crate::NoMemory;
use crate::sending::{send, send_full};
use crate::stop::Stop;
use io_edge::Sink;
use std::alloc::Global;
use std::sync::ledger::Ledger;
use steps::Steps;

/// What a command does with its items, one after the other.
pub trait Job {
    /// What is worked.
    type Item;

    /// The item may be worked.
    ghost can_work: { Self.Item → Type 0 };

    /// There is room for so many items more.
    ghost has_room: { Self → ℕ → Type 0 };

    /// The first job became the other by working these items, which have these lines.
    ghost has_worked: { Self → Self → List Self.Item → List (List ℕ) → Type 0 };

    /// Whether a line closes the output.
    ghost closes: { Bool };

    /// The job's whole output for these items has these lines and this status.
    ghost is_whole: { Self → List Self.Item → List (List ℕ) → ℕ → Type 0 };

    /// The first job became the other by working these items, and the counter rose as it has to.
    ghost has_counted: { Self → Self → List Self.Item → ℕ → ℕ → Type 0 };

    /// Works the next item, and appends its lines.
    fn answer<L: Ledger>(
        &mut self,
        alloc: Global,
        item: Self::Item,
        lines: &mut Vec<u8>,
        steps: &mut Steps<L>,
    ) -> Result<(), NoMemory>
        requires can { can_work item }
        requires room { HasRoomForOne (has_room self.old) }
        ensures worked { OnOk result ((first : Self) (items : List Self.Item) (so_far : List (List ℕ))
            → has_worked first self.old items so_far
            → Adds (has_worked first self.new (items ++ item ∷ [])) so_far lines.old.items lines.new.items) }
        ensures room { OnOk result ((n : ℕ) → has_room self.old (n + 1) → has_room self.new n) }
        ensures counted { OnOk result ((first : Self) (items : List Self.Item) (start : ℕ)
            → has_counted first self.old items start steps.old
            → has_counted first self.new (items ++ item ∷ []) start steps.new) };

    /// Appends what closes the output behind the last item, and gives the status.
    fn close(&self, lines: &mut Vec<u8>) -> Result<u8, NoMemory>
        ensures closed { IfOk result
            (λ status. (first : Self) (items : List Self.Item) (so_far : List (List ℕ))
            → has_worked first self.now items so_far
            → Adds (λ all. is_whole first items all status) so_far lines.old.items lines.new.items) }
        ensures starved { OnErr result (closes ≡ true) };
}

/// Works these items too, in order, and writes their lines in pieces.
pub fn work_more<J: Job, O: Sink, L: Ledger>(
    alloc: Global,
    job: &mut J,
    items: &[J::Item],
    out: &mut O,
    steps: &mut Steps<L>,
) -> Result<(), Stop>
where
    J::Item: Copy,
    requires can { (k : ℕ) (item : J.Item) → slice_get items.now k ≡ Some item → J.can_work item }
    requires room { J.has_room job.old (length items.now) }
    requires completes { CanComplete J.has_worked J.is_whole J.closes }
    ensures written { WorksMore J.has_worked J.is_whole job.old job.new items.now
        (O.outflow out.old) (O.outflow out.new) result }
    ensures counted { OnOk result (CountsMore J.has_counted job.old job.new items.now steps.old steps.new) }
{
    let mut lines = Vec::new(alloc);
    for item in items {
        job.answer(alloc, *item, &mut lines, steps)?;
        send_full(out, &mut lines)?;
    }
    send(out, lines.as_slice())
}

/// Works the items in order, and writes their lines and what closes them; the status comes out.
pub fn work_items<J: Job, O: Sink, L: Ledger>(
    alloc: Global,
    job: &mut J,
    items: &[J::Item],
    out: &mut O,
    steps: &mut Steps<L>,
) -> Result<u8, Stop>
where
    J::Item: Copy,
    requires can { (k : ℕ) (item : J.Item) → slice_get items.now k ≡ Some item → J.can_work item }
    requires room { J.has_room job.old (length items.now) }
    requires completes { CanComplete J.has_worked J.is_whole J.closes }
    requires begins { J.has_worked job.old job.old [] [] }
    requires counts { J.has_counted job.old job.old [] steps.old steps.old }
    ensures sent { SendsWhole (J.is_whole job.old items.now) (O.outflow out.old) (O.outflow out.new) result }
    ensures counted { OnOk result (J.has_counted job.old job.new items.now steps.old steps.new) }
{
    work_more(alloc, job, items, out, steps)?;
    let mut lines = Vec::new(alloc);
    let status = job.close(&mut lines)?;
    send(out, lines.as_slice())?;
    Ok(status)
}

/// Writes a line, and below it what the items have, worked in order.
pub fn work_below<J: Job, O: Sink, L: Ledger>(
    alloc: Global,
    head: &[u8],
    job: &mut J,
    items: &[J::Item],
    out: &mut O,
    steps: &mut Steps<L>,
) -> Result<u8, Stop>
where
    J::Item: Copy,
    requires can { (k : ℕ) (item : J.Item) → slice_get items.now k ≡ Some item → J.can_work item }
    requires room { J.has_room job.old (length items.now) }
    requires completes { CanComplete J.has_worked J.is_whole J.closes }
    requires begins { J.has_worked job.old job.old [] [] }
    requires counts { J.has_counted job.old job.old [] steps.old steps.old }
    ensures sent { SendsWhole (HasHead head.now (J.is_whole job.old items.now))
        (O.outflow out.old) (O.outflow out.new)
        result }
    ensures counted { OnOk result (J.has_counted job.old job.new items.now steps.old steps.new) }
{
    send(out, head)?;
    work_items(alloc, job, items, out, steps)
}
