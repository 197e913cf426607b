// What the encoder answers for a listing: no code and why, how many bits may be built, and whether they are enough.
#![tactic(auto)]

ghost use Rattle.std.specs.Prelude.{◌≡◌, cond, not, ◌&&◌, eqb};
ghost use Rattle.rules.specs.Limits.{most_bits};
ghost use Rattle.rules.specs.Refusals.{refused};
ghost use Rattle.code_encoding.specs.Encode.{no_code};

use rules::{Encoding, Refusal, Refused};

// No code, and why: it is refused as a whole, at line 0.
pub fn uncoded_as(r: Refusal) -> Result<Encoding, Refused>
    ensures { result ≡ refused r 0 }
{
    Err(r.at(0))
}

// What stands in place of a code where nothing is to be coded.
pub fn no_code() -> Encoding
    ensures { result ≡ no_code }
{
    Encoding {
        width: 0,
        bits: [0u64; rules::MOST_BITS],
        asked: 0,
        unmet: 0,
        passes: 0,
        looks: 0,
    }
}

// How many bits may be built: as many as there can be, where the width is 0.
pub fn most_of(width: usize) -> usize
    ensures { result ≡ cond (eqb width 0) most_bits width }
{
    if width == 0 {
        return rules::MOST_BITS;
    }
    width
}

// Width 0 asks for everything: it falls short if something is left live.
pub fn falls_short(width: usize, live: usize) -> bool
    ensures { result ≡ (eqb width 0 && not (eqb live 0)) }
{
    width == 0 && live != 0
}
