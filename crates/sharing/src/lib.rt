// Whether two rows of a listing can fire together: they share an input vector and a state.
#![tactic(auto)]

ghost use Rattle.std.specs.Prelude.{◌≡◌};
ghost use Rattle.rules.specs.Listing.{share_input, meets};

use rules::Row;

// Whether two rows share an input vector: at no input does one say 0 and the other 1.
fn share_input(a: Row, b: Row) -> bool
    ensures { result ≡ share_input a b }
{
    let unlike = a.input.ones ^ b.input.ones;
    let free = a.input.dashes | b.input.dashes;
    unlike & !free & rules::EVERY_INPUT == 0
}

// Whether two rows share an input vector and a state.
pub fn meet(a: Row, b: Row) -> bool
    ensures { result ≡ meets a b }
{
    share_input(a, b) && a.group & b.group != 0
}
