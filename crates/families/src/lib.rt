// A family of requirements, which have all their members but one in common, as three numbers: specs/ has which requirements they are, and proofs/ that
// the groups and the dichotomies of a listing are families.
#![tactic(auto)]

ghost use Rattle.std.specs.Prelude.{◌≡◌, slice_set};
ghost use Rattle.families.specs.Families.{without, laid};

// m without the members of x.
pub fn without_of(m: u64, x: u64) -> u64
    ensures { result ≡ without m x }
{
    m ^ (m & x)
}

// A word at a place of a list, where there is that place.
fn put_word(fs: &mut [u64], at: usize, word: u64)
    ensures { fs.new ≡ slice_set fs.old at word }
{
    if at < fs.len() {
        fs[at] = word;
    }
}

// A family's three numbers, from place `at` of a list on; those that have no place there are lost.
pub fn put(fs: &mut [u64], at: usize, all: u64, flip: u64, out: u64)
    ensures { fs.new ≡ laid at all flip out fs.old }
{
    put_word(fs, at, all);
    put_word(fs, at.saturating_add(1), flip);
    put_word(fs, at.saturating_add(2), out);
}
