// What one line of a KISS2 text says, without what the lines before it have said but for the headers and how many names there are; or why it is refused.
ghost use Rattle.std.specs.Prelude.{◌≡◌};
ghost use Rattle.read_kiss.specs.Says.{placed_says, line_says};

use read_kiss_lines::heads::{heads_line, in_place};
use read_kiss_lines::row::{KissRow, row_line};
use read_kiss_lines::states::{end_line, reset_line};
use read_names::Piece;
use rules::{KissHeads, KissMark, Refusal};

// A line gives the headers anew, the name of `.r`, or a row, or ends the text.
#[derive(Clone, Copy)]
pub enum Said {
    Heads(KissHeads),
    Reset(Piece),
    Row(KissRow),
    End,
}

// Line k, in its place, behind so many names: an unknown mark is 1.
#[tactic(auto, unfolding(crate::specs::Says::placed_says))]
fn placed_said(
    mark: KissMark,
    k: usize,
    h: KissHeads,
    count: usize,
    l: &[u8],
) -> Result<Said, Refusal>
    ensures { result ≡ placed_says mark k h count l.now }
{
    match mark {
        KissMark::Inputs | KissMark::Outputs | KissMark::States | KissMark::Products => {
            Ok(Said::Heads(heads_line(mark, k, h, l)?))
        }
        KissMark::Reset => Ok(Said::Reset(reset_line(l)?)),
        KissMark::Row => Ok(Said::Row(row_line(h.inputs, h.outputs, l)?)),
        KissMark::End => {
            end_line(count, l)?;
            Ok(Said::End)
        }
        KissMark::Unknown => Err(Refusal::BadLine),
    }
}

// Line k: out of its place it is 3.
#[tactic(auto, unfolding(crate::specs::Says::line_says))]
pub fn line_said(k: usize, h: KissHeads, count: usize, l: &[u8]) -> Result<Said, Refusal>
    ensures { result ≡ line_says k h count l.now }
{
    let mark = read_kiss_lines::marks::mark_of(l);
    if !in_place(mark, h) {
        return Err(Refusal::Place);
    }
    placed_said(mark, k, h, count, l)
}
