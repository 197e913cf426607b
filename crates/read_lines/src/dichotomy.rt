// `DI` and n of `+ - .`: a dichotomy.
ghost use Rattle.std.specs.Prelude.{◌≡◌};
ghost use Rattle.rules.specs.Lines.{dichotomy_line};

use read_fields::places_in;
use read_pieces::{behind, cut};
use rules::{Head, Refusal, Requirement};

// What a `DI` line says, behind `count` dichotomies.
pub fn dichotomy_line(h: Head, count: usize, l: &[u8]) -> Result<Requirement, Refusal>
    ensures { result ≡ dichotomy_line h count l.now }
{
    let mark = cut(l, 0, b' ');
    if l.len() <= mark {
        return Err(Refusal::BadLine);
    }
    let blocks = places_in(
        behind(l, mark),
        rules::MOST_STATES,
        h.states,
        b'.',
        b'+',
        b'-',
    )
    .ok_or(Refusal::BadLine)?;
    if rules::MOST_DICHOTOMIES <= count {
        return Err(Refusal::Limit);
    }
    Ok(Requirement {
        first: blocks.second,
        second: blocks.third,
    })
}
