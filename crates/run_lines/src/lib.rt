// The readers of the lines of a recorded run: `SS state` and `IN vector`. Each takes the line's bytes without its LF.
#![tactic(auto)]

ghost use Rattle.std.specs.Prelude.{◌≡◌};
ghost use Rattle.rules.specs.Replay.{marked, start_line, vector_line};
ghost use Rattle.read_marks.specs.Marks.{two_of};

use read_fields::{numeral_of, ones_in};
use read_pieces::{field, field_count};
use rules::{Head, Refusal, StateNumber};

// Whether a line has two fields, the first of them the mark m.
#[tactic(auto, unfolding(rules::specs::Replay::marked))]
fn is_marked(l: &[u8], m: &[u8; 2]) -> bool
    ensures { result ≡ marked (two_of m.now) l.now }
{
    field_count(l) == 2 && read_marks::leads(l, m)
}

// What an `SS` line says: a state that the machine has.
#[tactic(auto, unfolding(rules::specs::Replay::start_line, rules::specs::Replay::start_read))]
pub fn start_line(h: Head, l: &[u8]) -> Result<StateNumber, Refusal>
    ensures { result ≡ start_line h l.now }
{
    if !is_marked(l, b"SS") {
        return Err(Refusal::BadLine);
    }
    let s = numeral_of(field(l, 1)).ok_or(Refusal::BadLine)?;
    if h.states <= s {
        return Err(Refusal::BadLine);
    }
    Ok(StateNumber(s))
}

// What an `IN` line says, behind so many others.
#[tactic(auto, using(crate::proofs::Laws::vectors), unfolding(rules::specs::Replay::vector_line))]
pub fn vector_line(h: Head, done: usize, l: &[u8]) -> Result<u64, Refusal>
    ensures { result ≡ vector_line h done l.now }
{
    if !is_marked(l, b"IN") {
        return Err(Refusal::BadLine);
    }
    let inputs = ones_in(field(l, 1), rules::MOST_INPUTS, h.inputs).ok_or(Refusal::BadLine)?;
    if rules::MOST_STEPS <= done {
        return Err(Refusal::Limit);
    }
    Ok(inputs)
}
