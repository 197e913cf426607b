// A row of a KISS2 text: input, present state, next state, outputs.
ghost use Rattle.std.specs.Prelude.{◌≡◌, ◌&&◌};
ghost use Rattle.rules.specs.Text.{field_at};
ghost use Rattle.rules.specs.KissLines.{is_filled, is_short};
ghost use Rattle.read_kiss_lines.specs.Says.{state_pieces, row_read, kiss_row_line};

use read_fields::pattern_in;
use read_names::Piece;
use read_pieces::{cut, field, field_count};
use rules::{Pattern, Refusal};

// Where the two states of a row stand in its line.
#[derive(Clone, Copy)]
pub struct StatePieces {
    pub present: Piece,
    pub next: Piece,
}

// What a line of a row says.
#[derive(Clone, Copy)]
pub struct KissRow {
    pub input: Pattern,
    pub states: StatePieces,
    pub outputs: Pattern,
}

fn state_pieces(l: &[u8]) -> StatePieces
    ensures { result ≡ state_pieces l.now }
{
    let present = cut(l, 0, b' ') + 1;
    let between = cut(l, present, b' ');
    let next = between + 1;
    StatePieces {
        present: Piece {
            start: present,
            end: between,
        },
        next: Piece {
            start: next,
            end: cut(l, next, b' '),
        },
    }
}

// Whether both states have a field that is not empty.
#[tactic(auto, unfolding(rules::specs::KissLines::is_filled))]
fn are_filled(l: &[u8]) -> bool
    ensures { result ≡ (is_filled (field_at l.now 1) && is_filled (field_at l.now 2)) }
{
    field(l, 1).len() != 0 && field(l, 2).len() != 0
}

// Whether both states have names of at most 31 bytes.
#[tactic(auto, unfolding(rules::specs::KissLines::is_short))]
fn are_short(l: &[u8]) -> bool
    ensures { result ≡ (is_short (field_at l.now 1) && is_short (field_at l.now 2)) }
{
    field(l, 1).len() <= rules::MOST_NAME && field(l, 2).len() <= rules::MOST_NAME
}

// A row whose input and outputs are read.
#[tactic(auto, unfolding(crate::specs::Says::row_read))]
fn row_read(l: &[u8], input: Pattern, outputs: Pattern) -> Result<KissRow, Refusal>
    ensures { result ≡ row_read l.now input outputs }
{
    if !are_filled(l) {
        return Err(Refusal::BadLine);
    }
    if !are_short(l) {
        return Err(Refusal::Names);
    }
    Ok(KissRow {
        input: input,
        states: state_pieces(l),
        outputs: outputs,
    })
}

// What a row says, under i inputs and o outputs.
#[tactic(auto, using(crate::proofs::JudgedRows::parts))]
pub fn row_line(i: usize, o: usize, l: &[u8]) -> Result<KissRow, Refusal>
    ensures { result ≡ kiss_row_line i o l.now }
{
    if field_count(l) != 4 {
        return Err(Refusal::BadLine);
    }
    let input = pattern_in(field(l, 0), rules::MOST_INPUTS, i).ok_or(Refusal::BadLine)?;
    let outputs = pattern_in(field(l, 3), rules::MOST_OUTPUTS, o).ok_or(Refusal::BadLine)?;
    row_read(l, input, outputs)
}
