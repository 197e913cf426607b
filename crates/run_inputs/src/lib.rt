// Whether an input vector is one of those that a row's input takes.
#![tactic(auto)]

ghost use Rattle.std.specs.Prelude.{◌≡◌};
ghost use Rattle.run_inputs.specs.Inputs.{takes_input};

use rules::Pattern;

// Whether the first so many inputs of a pattern take the vector x: at none of them does it say the other digit.
pub fn takes_input(inputs: usize, p: Pattern, x: u64) -> bool
    ensures { result ≡ takes_input inputs p x }
{
    let unlike = p.ones as u64 ^ x;
    let free = p.dashes as u64;
    unlike & !free & sets::everyone_of(inputs) == 0
}
