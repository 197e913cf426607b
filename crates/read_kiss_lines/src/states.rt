// The names of states in a line: `*`, which is none, and `.r` with its name; and the end line, which wants a state.
ghost use Rattle.std.specs.Prelude.{◌≡◌};
ghost use Rattle.rules.specs.KissLines.{is_star};
ghost use Rattle.read_kiss_lines.specs.Says.{reset_line, kiss_end_line};

use read_names::Piece;
use read_pieces::{cut, field, field_count};
use rules::Refusal;

// Whether a field is `*`.
#[tactic(auto, unfolding(rules::specs::KissLines::is_star))]
pub fn is_star(f: &[u8]) -> bool
    ensures { result ≡ is_star f.now }
{
    read_names::same_bytes(f, b"*")
}

// `.r name`: where the name stands in the line.
#[tactic(auto, using(crate::proofs::Pieces::names), unfolding(crate::specs::Says::reset_line, rules::specs::KissLines::reset_fits, rules::specs::KissLines::is_filled, rules::specs::KissLines::is_short))]
pub fn reset_line(l: &[u8]) -> Result<Piece, Refusal>
    ensures { result ≡ reset_line l.now }
{
    let name = field(l, 1);
    if field_count(l) != 2 || name.len() == 0 || is_star(name) {
        return Err(Refusal::BadLine);
    }
    if rules::MOST_NAME < name.len() {
        return Err(Refusal::Names);
    }
    let start = cut(l, 0, b' ') + 1;
    Ok(Piece {
        start: start,
        end: cut(l, start, b' '),
    })
}

// `.e`, behind so many names.
#[tactic(auto, unfolding(crate::specs::Says::kiss_end_line))]
pub fn end_line(count: usize, l: &[u8]) -> Result<(), Refusal>
    ensures { result ≡ kiss_end_line count l.now }
{
    if field_count(l) != 1 {
        return Err(Refusal::BadLine);
    }
    if count == 0 {
        return Err(Refusal::Limit);
    }
    Ok(())
}
