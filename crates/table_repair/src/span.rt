//! Rows, or columns, that lie one beside the other.

ghost use Rattle.std.specs.Prelude.{◌≡◌, ◌<◌, ◌≤◌};
ghost use Rattle.table_repair.specs.Mending as spec;
ghost use Rattle.table_repair.specs.Mending.{far_number, span_beside, without_far};

/// The numbers of some rows, or columns: from the first one on, and below the end.
#[derive(Clone, Copy, PartialEq, Eq)]
pub struct Span {
    pub first: u16,
    pub end: u16,
}

/// Takes the last number out, or the first, if there is one.
pub fn take_far(span: &mut Span, from_end: bool) -> Option<u16>
    ensures taken { result ≡ far_number from_end span.old }
    ensures rest { span.new ≡ without_far from_end span.old }
{
    if span.first >= span.end {
        return None;
    }
    if from_end {
        span.end -= 1;
        Some(span.end)
    } else {
        span.first += 1;
        Some(span.first - 1)
    }
}

/// A row, or column, of so many, and those beside it.
pub fn beside(n: u16, side: u16) -> Span
    requires inside { n < side }
    requires small { side ≤ 4096 }
    ensures { result ≡ span_beside n side }
{
    Span {
        first: n.saturating_sub(1),
        end: side.min(n + 2),
    }
}

/// The span with so many numbers more, before it or behind it, as far as the side goes.
pub fn widened(span: Span, before: bool, by: u16, side: u16) -> Span
    requires small { span.end ≤ 4096 }
    requires few { by ≤ 4096 }
    ensures { result ≡ spec.widened before span by side }
{
    if before {
        Span {
            first: span.first.saturating_sub(by),
            end: span.end,
        }
    } else {
        Span {
            first: span.first,
            end: side.min(span.end + by),
        }
    }
}

/// These numbers alone: so many before the span or behind it, as far as the side goes.
pub fn span_next(span: Span, before: bool, by: u16, side: u16) -> Span
    requires small { span.end ≤ 4096 }
    requires few { by ≤ 4096 }
    ensures { result ≡ spec.span_next before span by side }
{
    if before {
        Span {
            first: span.first.saturating_sub(by),
            end: span.first,
        }
    } else {
        Span {
            first: span.end,
            end: side.min(span.end + by),
        }
    }
}
