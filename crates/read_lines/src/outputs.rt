// `OU state outputs`: the outputs of a state of a Moore machine.
ghost use Rattle.std.specs.Prelude.{◌≡◌};
ghost use Rattle.rules.specs.Lines.{outputs_line};
ghost use Rattle.rules.specs.Listing.{had_outputs};

use read_fields::{numeral_of, pattern_in};
use read_pieces::{field, field_count};
use rules::{Head, Refusal, StateNumber, StateOutputs};

// What an `OU` line says.
#[tactic(auto, using(crate::proofs::outputs::Laws::fits), unfolding(rules::specs::Lines::outputs_line, rules::specs::Lines::outputs_fit, rules::specs::Lines::outputs_read))]
pub fn outputs_line(h: Head, l: &[u8]) -> Result<StateOutputs, Refusal>
    ensures { result ≡ outputs_line h l.now }
{
    if field_count(l) != 3 {
        return Err(Refusal::BadLine);
    }
    let outputs = pattern_in(field(l, 2), rules::MOST_OUTPUTS, h.outputs).ok_or(Refusal::BadLine)?;
    let s = numeral_of(field(l, 1)).ok_or(Refusal::BadLine)?;
    if h.states <= s {
        return Err(Refusal::Limit);
    }
    Ok(StateOutputs {
        state: StateNumber(s),
        outputs: outputs,
    })
}

// Whether the state that an `OU` line names, if its number can be read, is one of those that were given outputs.
#[tactic(auto, unfolding(rules::specs::Listing::had_outputs))]
pub fn had_outputs(given: u64, l: &[u8]) -> bool
    ensures { result ≡ had_outputs given l.now }
{
    match numeral_of(field(l, 1)) {
        Some(s) => sets::member(given, s),
        None => false,
    }
}
