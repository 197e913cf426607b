// By which bit a code meets a requirement, judged from its bits by masks.
#![tactic(auto)]

ghost use Rattle.std.specs.Prelude.{◌≡◌, ◌&&◌, not};
ghost use Rattle.rules.specs.Requirements.{wholly, met, judgement, met_by_code};
ghost use Rattle.families.specs.Families.{requirements_in};
ghost use Rattle.code_judging.specs.Judging.{judgement_at, judged, some_unmet, any_unmet};

use code_walking::Requirements;
use rules::{BitNumber, Encoding, Requirement};

// Whether the bit b has value 0 on the whole block z and 1 on the whole block o.
fn parts(b: u64, z: u64, o: u64) -> bool
    ensures { result ≡ (wholly 64 b 0 z && wholly 64 b 1 o) }
{
    b & z == 0 && b & o == o
}

// Whether it meets the requirement: it has one value on the whole first block and the other on the whole second.
pub fn meets(b: u64, r: Requirement) -> bool
    ensures { result ≡ met 64 r b }
{
    parts(b, r.first, r.second) || parts(b, r.second, r.first)
}

// The lowest bit of the code that meets it, or that none does.
pub fn judge(bits: &[u64], r: Requirement) -> Option<BitNumber>
    ensures { result ≡ judgement 64 bits.now r }
{
    for (k, b) in bits.iter().enumerate() {
        if meets(*b, r) {
            return Some(BitNumber(k));
        }
    }
    None
}

// Whether no bit of the code meets it.
pub fn is_unmet(bits: &[u64], r: Requirement) -> bool
    ensures { result ≡ not (met_by_code 64 bits.now r) }
{
    judge(bits, r).is_none()
}

// The judgement of the requirement with that number of the families; beyond them there is none to meet.
fn judge_in(bits: &[u64], fs: &[u64], number: usize) -> Option<BitNumber>
    ensures { result ≡ judgement_at 64 bits.now (requirements_in fs.now) number }
{
    let r = Requirements::new(fs).nth(number)?;
    judge(bits, r)
}

// The judgement of the listing's requirement with that number; beyond those asked there is none to meet.
pub fn judge_number(
    t: rules::Listing,
    e: Encoding,
    r: rules::RequirementNumber,
) -> Option<BitNumber>
    ensures { result ≡ judged t e r }
{
    let k = r.0;
    let asked = e.asked;
    if asked <= k {
        return None;
    }
    let width = sets::least(e.width, rules::MOST_BITS);
    let bits = e.bits;
    let mut fs = [0u64; code_drawing::ALL_WORDS];
    let words = code_drawing::draw_all(t, &mut fs);
    judge_in(&bits[..width], &fs[..words], k)
}

// Whether no bit meets one of the families' requirements.
pub fn is_unmet_in(bits: &[u64], fs: &[u64]) -> bool
    ensures { result ≡ some_unmet bits.now (requirements_in fs.now) }
{
    Requirements::new(fs).any(|r| is_unmet(bits, r))
}

// The same of the encoder's answer.
pub fn is_any_unmet(e: Encoding, fs: &[u64]) -> bool
    ensures { result ≡ any_unmet fs.now e }
{
    let width = sets::least(e.width, rules::MOST_BITS);
    let bits = e.bits;
    is_unmet_in(&bits[..width], fs)
}
