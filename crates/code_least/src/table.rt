// What each column of a small machine meets, as a mask with a digit for each requirement; the bits of a code; how many requirements there are.
ghost use Rattle.std.specs.Prelude.{◌≡◌, map, ◌++◌, ◌+◌, ◌*◌, ◌^◌, ◌≤◌, ◌<◌, length, drop};
ghost use Rattle.rules.specs.Limits.{most_states, most_asked, most_small_asked};
ghost use Rattle.rules.specs.Text.{digit};
ghost use Rattle.rules.specs.Least.{column, bits_for};
ghost use Rattle.families.specs.Families.{requirements_in};
ghost use Rattle.code_least.specs.Table.{mask_from, masks};

use code_walking::Requirements;

// The bit of a column: state 0 is at 0, and state 1 at the highest digit.
fn column_of(n: usize, v: usize) -> u64
    requires { n ≤ most_states }
    ensures { result ≡ column n v }
{
    let mut b: usize = 0;
    for k in 0..n.saturating_sub(1) {
        b = b * 2 + (v >> k) % 2;
    }
    (b * 2) as u64
}

// One digit more, behind the others.
fn with_digit(m: u64, d: bool) -> u64
    requires { m * 2 + 1 < 2 ^ 64 }
    ensures { result ≡ m * 2 + digit d }
{
    m * 2 + u64::from(d)
}

// Which requirements of the families a bit meets, the first of them at the highest digit.
fn mask_of(b: u64, fs: &[u64]) -> u64
    requires { length (requirements_in fs.now) ≤ most_small_asked }
    ensures { result ≡ mask_from 0 b (requirements_in fs.now) }
{
    let mut m: u64 = 0;
    for r in Requirements::new(fs) {
        m = with_digit(m, code_judging::meets(b, r));
    }
    m
}

// The masks of the first columns, as many as there are places.
pub fn fill_masks(n: usize, fs: &[u64], met: &mut [u64])
    requires { (n ≤ most_states) × (length (requirements_in fs.now) ≤ most_small_asked) }
    ensures { met.new ≡ masks n (requirements_in fs.now) (length met.old) }
{
    for (v, mask) in met.iter_mut().enumerate() {
        *mask = mask_of(column_of(n, v), fs);
    }
}

// The bits of a code into the first places.
pub fn fill_bits(n: usize, code: &[usize], bits: &mut [u64])
    requires { (n ≤ most_states) × (length code.now ≤ length bits.old) }
    ensures { bits.new ≡ bits_for n code.now ++ drop (length code.now) bits.old }
{
    for (k, column) in code.iter().enumerate() {
        bits[k] = column_of(n, *column);
    }
}

// How many requirements the families have.
pub fn count_of(fs: &[u64]) -> usize
    requires { length (requirements_in fs.now) ≤ most_asked }
    ensures { result ≡ length (requirements_in fs.now) }
{
    Requirements::new(fs).count()
}
