// The headers of a KISS2 text that tell a number, and where a line may stand.
ghost use Rattle.std.specs.Prelude.{◌≡◌, ◌&&◌, cond, leb, eqb, Ok, Err};
ghost use Rattle.rules.specs.KissLines.{number_line};
ghost use Rattle.rules.specs.Kiss.{kiss_placed};
ghost use Rattle.rules.specs.declared.Refusal.TheVariants.{Limit};
ghost use Rattle.read_kiss_lines.specs.Says.{told, heads_line};

use rules::{KissHeads, KissMark, Refusal, Told};

// The one number behind the mark.
#[tactic(auto, unfolding(rules::specs::KissLines::number_line))]
fn number_line(l: &[u8]) -> Option<usize>
    ensures { result ≡ number_line l.now }
{
    if read_pieces::field_count(l) != 2 {
        return None;
    }
    read_fields::numeral_of(read_pieces::field(l, 1))
}

// A number that is 1 to `most`.
fn within(n: usize, most: usize) -> Result<usize, Refusal>
    ensures { result ≡ cond (leb 1 n && leb n most) (Ok n) (Err Limit) }
{
    if 1 <= n && n <= most {
        Ok(n)
    } else {
        Err(Refusal::Limit)
    }
}

// What the number n says behind a mark; other marks than these four tell none.
#[tactic(auto, unfolding(crate::specs::Says::told, crate::specs::Says::inputs_told, crate::specs::Says::outputs_told))]
fn number_told(mark: KissMark, k: usize, h: KissHeads, n: usize) -> Result<KissHeads, Refusal>
    ensures { result ≡ told mark k h n }
{
    let mut next = h;
    match mark {
        KissMark::Inputs => next.inputs = within(n, rules::MOST_INPUTS)?,
        KissMark::Outputs => next.outputs = within(n, rules::MOST_OUTPUTS)?,
        KissMark::States => next.states = Told { number: n, line: k },
        KissMark::Products => next.products = Told { number: n, line: k },
        _ => return Err(Refusal::BadLine),
    }
    Ok(next)
}

// `.i`, `.o`, `.s` or `.p`, as line k.
#[tactic(auto, unfolding(crate::specs::Says::heads_line))]
pub fn heads_line(mark: KissMark, k: usize, h: KissHeads, l: &[u8]) -> Result<KissHeads, Refusal>
    ensures { result ≡ heads_line mark k h (number_line l.now) }
{
    let n = number_line(l).ok_or(Refusal::BadLine)?;
    number_told(mark, k, h, n)
}

// Whether a header that has come as `seen` says may come now: once, and before the rows.
fn is_early(seen: usize, lines: usize) -> bool
    ensures { result ≡ (eqb seen 0 && eqb lines 0) }
{
    seen == 0 && lines == 0
}

// Whether a line with this mark is in its place.
#[tactic(auto, unfolding(rules::specs::Kiss::kiss_placed))]
pub fn in_place(mark: KissMark, h: KissHeads) -> bool
    ensures { result ≡ kiss_placed mark h }
{
    match mark {
        KissMark::Inputs => is_early(h.inputs, h.lines),
        KissMark::Outputs => is_early(h.outputs, h.lines),
        KissMark::States => is_early(h.states.line, h.lines),
        KissMark::Products => is_early(h.products.line, h.lines),
        KissMark::Reset => !h.reset && h.lines == 0,
        KissMark::End | KissMark::Row => h.inputs != 0 && h.outputs != 0,
        KissMark::Unknown => true,
    }
}
