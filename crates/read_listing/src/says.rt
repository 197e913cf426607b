// What one line does to a listing, said without the listing; or why it is refused.
ghost use Rattle.std.specs.Prelude.{◌≡◌};
ghost use Rattle.rules.specs.Listing.{placed};
ghost use Rattle.rules.specs.declared.Mark.TheVariants.{Ou};
ghost use Rattle.read_listing.specs.Says.{placed_says, line_says, states_said};

use read_lines::dichotomy::dichotomy_line;
use read_lines::outputs::{had_outputs, outputs_line};
use read_lines::row::row_line;
use rules::{Head, Mark, Refusal, Requirement, Row, StateOutputs};

// What a line does: it gives the head, a row, a dichotomy or the outputs of a state, or ends the listing.
#[derive(Clone, Copy)]
pub enum Said {
    Head(Head),
    Row(Row),
    Dichotomy(Requirement),
    Outputs(StateOutputs),
    End,
}

// Line k, in its place: an unknown mark is 1.
#[tactic(auto, unfolding(crate::specs::Says::placed_says))]
fn placed_said(
    mark: Mark,
    k: usize,
    h: Head,
    rows: usize,
    dichotomies: usize,
    l: &[u8],
) -> Result<Said, Refusal>
    ensures { result ≡ placed_says mark k h rows dichotomies l.now }
{
    match mark {
        Mark::Mc => Ok(Said::Head(read_head::head_line(false, l)?)),
        Mark::Mo => Ok(Said::Head(read_head::head_line(true, l)?)),
        Mark::Pt => Ok(Said::Row(row_line(h, rows, k, l)?)),
        Mark::Di => Ok(Said::Dichotomy(dichotomy_line(h, dichotomies, l)?)),
        Mark::Ou => Ok(Said::Outputs(outputs_line(h, l)?)),
        Mark::En => {
            read_marks::end_line(l)?;
            Ok(Said::End)
        }
        Mark::Ft | Mark::Unknown => Err(Refusal::BadLine),
    }
}

// Whether an `OU` line is in its place as line k: under `MO`, and the first for its state.
#[tactic(auto, unfolding(rules::specs::Listing::placed))]
fn outputs_in_place(k: usize, h: Head, given: u64, l: &[u8]) -> bool
    ensures { result ≡ placed Ou k h given l.now }
{
    k != 1 && h.moore && !had_outputs(given, l)
}

// Whether a line with this mark is in its place as line k, under the head h and behind `OU` lines of the states given.
#[tactic(auto, unfolding(rules::specs::Listing::placed))]
pub fn in_place(mark: Mark, k: usize, h: Head, given: u64, l: &[u8]) -> bool
    ensures { result ≡ placed mark k h given l.now }
{
    match mark {
        Mark::Mc | Mark::Mo => k == 1,
        Mark::Pt | Mark::Di | Mark::En | Mark::Unknown => k != 1,
        Mark::Ou => outputs_in_place(k, h, given, l),
        Mark::Ft => false,
    }
}

// Line k, under the head h and behind so many rows and dichotomies and the `OU` lines of the states given: out of its place it is 3.
#[tactic(auto, unfolding(crate::specs::Says::line_says))]
pub fn line_said(
    k: usize,
    h: Head,
    rows: usize,
    dichotomies: usize,
    given: u64,
    l: &[u8],
) -> Result<Said, Refusal>
    ensures { result ≡ line_says k h rows dichotomies given l.now }
{
    let mark = read_marks::mark_of(l);
    if !in_place(mark, k, h, given, l) {
        return Err(Refusal::Place);
    }
    placed_said(mark, k, h, rows, dichotomies, l)
}

// How many states a line names: those of the head; none where it gives no head.
#[tactic(auto, unfolding(crate::specs::Says::states_said))]
pub fn states_said(said: Result<Said, Refusal>) -> usize
    ensures { result ≡ states_said said }
{
    match said {
        Ok(Said::Head(h)) => h.states,
        _ => 0,
    }
}
