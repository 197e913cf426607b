// What one line does to a flow table: it gives a state's entries, or ends the table; or why it is refused.
ghost use Rattle.std.specs.Prelude.{◌≡◌, ◌≤◌};
ghost use Rattle.rules.specs.Limits.{most_states};
ghost use Rattle.rules.specs.FlowLines.{flow_placed, flow_does};
ghost use Rattle.rules.specs.Listing.{flow_step};
ghost use Rattle.read_flow.specs.Flows.{said_of};

use rules::{Mark, Refusal};

#[derive(Clone, Copy)]
pub enum Said {
    Line,
    End,
}

// A line in its place: an unknown mark is 1.
#[tactic(auto, unfolding(rules::specs::FlowLines::flow_does))]
fn placed_said(mark: Mark, n: usize, columns: usize, l: &[u8]) -> Result<Said, Refusal>
    ensures { result ≡ said_of (flow_does mark n columns l.now) }
{
    match mark {
        Mark::Ft => {
            super::line::flow_line(n, columns, l)?;
            Ok(Said::Line)
        }
        Mark::En => {
            read_marks::end_line(l)?;
            Ok(Said::End)
        }
        _ => Err(Refusal::BadLine),
    }
}

// Whether a line with this mark is in its place as line k, of n states: a line for each, and then `EN`.
#[tactic(auto, unfolding(rules::specs::FlowLines::flow_placed))]
pub fn in_place(mark: Mark, k: usize, n: usize) -> bool
    requires { n ≤ most_states }
    ensures { result ≡ flow_placed mark k n }
{
    match mark {
        Mark::Ft => k <= n + 1,
        Mark::En => n + 2 <= k,
        Mark::Unknown => true,
        _ => false,
    }
}

// Line k of a flow table of n states and so many columns.
#[tactic(auto, unfolding(rules::specs::Listing::flow_step))]
pub fn line_said(k: usize, n: usize, columns: usize, l: &[u8]) -> Result<Said, Refusal>
    requires { n ≤ most_states }
    ensures { result ≡ said_of (flow_step k n columns l.now) }
{
    let mark = read_marks::mark_of(l);
    if !in_place(mark, k, n) {
        return Err(Refusal::Place);
    }
    placed_said(mark, n, columns, l)
}
