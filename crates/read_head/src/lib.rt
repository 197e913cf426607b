// `MC n i o w`, or the same behind `MO`, and behind it 0 or 1: the head, read from the line's bytes without its LF.
#![tactic(auto)]

ghost use Rattle.std.specs.Prelude.{◌≡◌, ◌&&◌, leb, length};
ghost use Rattle.rules.specs.Text.{fields_of, field_at, numeral_of};
ghost use Rattle.rules.specs.Lines.{head_numbers, fifth_of, head_line};

use read_pieces::{field, field_count};
use rules::{Head, Refusal};

// Whether a number is 1 to `most`.
fn within(v: usize, most: usize) -> bool
    ensures { result ≡ (leb 1 v && leb v most) }
{
    1 <= v && v <= most
}

// The numbers of a head, each in its range or refused.
#[tactic(auto, unfolding(rules::specs::Lines::head_numbers))]
fn head_numbers(
    moore: bool,
    n: usize,
    i: usize,
    o: usize,
    w: usize,
    k: usize,
) -> Result<Head, Refusal>
    ensures { result ≡ head_numbers moore n i o w k }
{
    let fits = within(n, rules::MOST_STATES)
        && within(i, rules::MOST_INPUTS)
        && within(o, rules::MOST_OUTPUTS)
        && w <= rules::MOST_BITS
        && k <= 1;
    if !fits {
        return Err(Refusal::Limit);
    }
    Ok(Head {
        states: n,
        inputs: i,
        outputs: o,
        width: w,
        keeps: k == 1,
        moore: moore,
    })
}

// What field k of a line says as a number.
fn number_at(l: &[u8], k: usize) -> Option<usize>
    ensures { result ≡ numeral_of (field_at l.now k) }
{
    read_fields::numeral_of(field(l, k))
}

// The fifth number of a line that has `count` fields: 0 where there are four.
#[tactic(auto, unfolding(rules::specs::Lines::fifth_of))]
fn fifth_of(l: &[u8], count: usize) -> Option<usize>
    requires { count ≡ length (fields_of l.now) }
    ensures { result ≡ fifth_of l.now }
{
    if count == 5 {
        return Some(0);
    }
    number_at(l, 5)
}

// What an `MC` line says, or an `MO` line, which `moore` tells: the first field that is no number refuses the line.
#[tactic(auto, unfolding(rules::specs::Lines::head_line, rules::specs::Lines::head_numerals))]
pub fn head_line(moore: bool, l: &[u8]) -> Result<Head, Refusal>
    ensures { result ≡ head_line moore l.now }
{
    let count = field_count(l);
    if count < 5 || 6 < count {
        return Err(Refusal::BadLine);
    }
    let n = number_at(l, 1).ok_or(Refusal::BadLine)?;
    let i = number_at(l, 2).ok_or(Refusal::BadLine)?;
    let o = number_at(l, 3).ok_or(Refusal::BadLine)?;
    let w = number_at(l, 4).ok_or(Refusal::BadLine)?;
    let k = fifth_of(l, count).ok_or(Refusal::BadLine)?;
    head_numbers(moore, n, i, o, w, k)
}
