// The first pair or group requirement of a listing that no bit of a code meets.
#![tactic(auto)]

ghost use Rattle.std.specs.Prelude.{◌≡◌, ◌+◌, ◌*◌, ◌≤◌, length, take};
ghost use Rattle.rules.specs.Limits.{most_states, most_rows};
ghost use Rattle.rules.specs.Code.{unmet_from};
ghost use Rattle.families.specs.Families.{requirements_in};
ghost use Rattle.code_drawing.specs.Drawing.{first_families};
ghost use Rattle.judge_unmet.specs.First.{first_of};

use code_walking::Requirements;
use rules::{Listing, RequirementNumber};

// The number of the first of some families' requirements that no bit meets, or that each is met.
fn first_in(bits: &[u64], fs: &[u64]) -> Option<RequirementNumber>
    requires { length fs.now ≤ 3 * most_states + 3 * most_rows }
    ensures { result ≡ first_of (unmet_from 0 64 bits.now (requirements_in fs.now)) }
{
    let k = Requirements::new(fs).position(|r| code_judging::is_unmet(bits, r))?;
    Some(RequirementNumber(k))
}

// The same of a listing's pairs and groups, judged by the first bits of a code.
pub fn first_unmet(
    t: Listing,
    width: usize,
    bits: [u64; rules::MOST_BITS],
) -> Option<RequirementNumber>
    ensures { result ≡ first_of (unmet_from 0 64 (take width bits) (requirements_in (first_families t))) }
{
    let n = sets::least(width, rules::MOST_BITS);
    let mut fs = [0u64; code_drawing::ALL_WORDS];
    let words = code_drawing::draw_first(t, &mut fs);
    first_in(&bits[..n], &fs[..words])
}
