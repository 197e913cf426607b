// A list of families: the gain table is filled, and a state is moved, as if each of their requirements were visited.
#![tactic(auto)]

mod marks;

ghost use Rattle.std.specs.Prelude.{◌≡◌, ◌+◌, ◌-◌, ◌*◌, ◌%◌, ◌^◌};
ghost use Rattle.sets.specs.Sets.{flip};
ghost use Rattle.move_table.specs.Moves.{filled, moved, looked};
ghost use Rattle.families.specs.Families.{requirements_in};
ghost use Rattle.move_families.specs.Swayed.{swayed_all, looks_all, doubled};
ghost use Rattle.move_families.specs.Filled.{family_filled};

use move_halves::Half;

// What one family adds to the table at the bit b: both its halves.
fn fill_family(all: u64, flip: u64, out: u64, b: u64, t: &mut [u32])
    ensures { t.new ≡ family_filled all flip out b t.old }
{
    let x = move_halves::side_of(all, flip, b);
    let o = families::without_of(out, all);
    let right = o & b;
    let rest = o ^ right;
    let half = Half {
        all,
        side: x,
        right,
        rest,
    };
    let other = half.turned(all ^ x);
    move_halves::put_half(true, move_halves::worth_of(out, right), half, t);
    move_halves::put_half(true, move_halves::worth_of(out, rest), other, t);
}

// What all the families of a list add.
pub fn fill_families(fs: &[u64], b: u64, t: &mut [u32])
    ensures { t.new ≡ filled (requirements_in fs.now) b t.old }
{
    let (families, _) = fs.as_chunks::<3>();
    for &[all, flip, out] in families {
        fill_family(all, flip, out, b, t);
    }
}

// 2 * w - v, modulo 2 ^ 32.
fn double(w: u32, v: u32) -> u32
    ensures { result ≡ (2 * w + (2 ^ 32 - v)) % 2 ^ 32 }
{
    w.wrapping_mul(2).wrapping_sub(v)
}

// The change of the moved state's own level from v made twice.
pub fn double_own(t: &mut [u32], s: usize, v: u32)
    ensures { t.new ≡ doubled s v t.old }
{
    if s < t.len() {
        t[s] = double(t[s], v);
    }
}

// The move of s at the bit b, for each family in turn, run by run, with the moved state's own change by half; the answer is how many requirements it looks at, modulo
// 2 ^ 64.
pub fn sway_families(fs: &[u64], b: u64, s: usize, t: &mut [u32]) -> usize
    ensures { (result ≡ looks_all fs.now b s % 2 ^ 64) × (t.new ≡ swayed_all fs.now b s t.old) }
{
    let mut looks: usize = 0;
    for run in fs.chunks(marks::RUN) {
        looks = looks.wrapping_add(marks::sway_run(run, b, s, t));
    }
    looks
}

// The move of s at the bit b, for the requirements of all the families: the looks, modulo 2 ^ 64, and the table after it, the moved state's level too.
pub fn move_families(fs: &[u64], b: u64, s: usize, t: &mut [u32]) -> usize
    ensures { (result ≡ looked (requirements_in fs.now) b (flip b s) s % 2 ^ 64) × (t.new ≡ moved (requirements_in fs.now) b (flip b s) s t.old) }
{
    let v = move_table::level_at(t, s);
    let looks = sway_families(fs, b, s, t);
    double_own(t, s, v);
    looks
}
