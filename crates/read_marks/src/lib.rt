// The mark that leads a line, its whole first field compared with seven fixed strings, and the end line, which is its mark alone. A line comes without its LF.
#![tactic(auto)]

ghost use Rattle.std.specs.Prelude.{◌≡◌};
ghost use Rattle.rules.specs.Text.{same, mark_of, mark_is};
ghost use Rattle.rules.specs.Lines.{end_line};
ghost use Rattle.read_marks.specs.Marks.{two_of};

use read_pieces::{field, field_count};
use rules::{Mark, Refusal};

// Whether a field is the mark m.
#[tactic(auto, using(crate::proofs::Mark::two_bytes))]
pub fn is_mark(f: &[u8], m: &[u8; 2]) -> bool
    ensures { result ≡ same f.now (two_of m.now) }
{
    f.len() == 2 && f[0] == m[0] && f[1] == m[1]
}

// Which mark a field is.
#[tactic(auto, using(crate::proofs::Mark::two_bytes), unfolding(rules::specs::Text::mark_is))]
fn mark_in(f: &[u8]) -> Mark
    ensures { result ≡ mark_is f.now }
{
    match f {
        b"MC" => Mark::Mc,
        b"MO" => Mark::Mo,
        b"PT" => Mark::Pt,
        b"DI" => Mark::Di,
        b"OU" => Mark::Ou,
        b"FT" => Mark::Ft,
        b"EN" => Mark::En,
        _ => Mark::Unknown,
    }
}

// The mark that leads a line.
#[tactic(auto, unfolding(rules::specs::Text::mark_of))]
pub fn mark_of(l: &[u8]) -> Mark
    ensures { result ≡ mark_is (mark_of l.now) }
{
    mark_in(field(l, 0))
}

// Whether the mark m leads a line.
#[tactic(auto, unfolding(rules::specs::Text::mark_of))]
pub fn leads(l: &[u8], m: &[u8; 2]) -> bool
    ensures { result ≡ same (mark_of l.now) (two_of m.now) }
{
    is_mark(field(l, 0), m)
}

// What an `EN` line says: it is the mark alone.
#[tactic(auto, unfolding(rules::specs::Lines::end_line))]
pub fn end_line(l: &[u8]) -> Result<(), Refusal>
    ensures { result ≡ end_line l.now }
{
    if field_count(l) == 1 {
        Ok(())
    } else {
        Err(Refusal::BadLine)
    }
}
