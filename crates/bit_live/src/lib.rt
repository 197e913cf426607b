// The live requirements, as the bits built so far and a list of families: the gain table is filled with them, a state is moved, they are counted, a bit
// starts from the lowest of them, and a bit leaves some of them.
#![tactic(auto)]

mod left;

ghost use Rattle.std.specs.Prelude.{◌≡◌, ◌%◌, ◌^◌, length};
ghost use Rattle.sets.specs.Sets.{flip};
ghost use Rattle.rules.specs.OneBit.{start};
ghost use Rattle.move_table.specs.Moves.{filled, moved, looked};
ghost use Rattle.families.specs.Families.{requirements_of, requirements_in};
ghost use Rattle.move_pairs.specs.Pairs.{live_pairs};
ghost use Rattle.bit_live.specs.Live.{live_in};
ghost use Rattle.bit_live.specs.Lowest.{FirstPartners};
ghost use Rattle.bit_live.specs.Left.{left_families, sifted_families};

// What all live requirements add to the gain table at the bit b.
pub fn fill_live(n: usize, bits: &[u64], fs: &[u64], b: u64, t: &mut [u32])
    ensures { t.new ≡ filled (live_in n bits.now fs.now) b t.old }
{
    move_pairs::fill_pairs(n, bits, b, t);
    move_families::fill_families(fs, b, t);
}

// The move of s at the bit b: the looks, modulo 2 ^ 64, and the table after it, in which each state's level is true, the moved one's too.
pub fn move_live(n: usize, bits: &[u64], fs: &[u64], b: u64, s: usize, t: &mut [u32]) -> usize
    ensures { (result ≡ looked (live_in n bits.now fs.now) b (flip b s) s % 2 ^ 64) × (t.new ≡ moved (live_in n bits.now fs.now) b (flip b s) s t.old) }
{
    let v = move_table::level_at(t, s);
    let one = move_pairs::sway_pairs(n, bits, b, s, t);
    let other = move_families::sway_families(fs, b, s, t);
    move_families::double_own(t, s, v);
    one.wrapping_add(other)
}

// How many live pairs there are.
pub fn count_pairs(n: usize, bits: &[u64]) -> usize
    ensures { result ≡ length (live_pairs n bits.now) }
{
    let mut count: usize = 0;
    for i in 0..n.min(64) {
        let p = move_pairs::partners_of(n, bits, i);
        let above = families::without_of(p, sets::everyone_of(i + 1));
        count += sets::size_of(above) as usize;
    }
    count
}

// How many requirements a family has.
pub fn count_family(all: u64, flip: u64, out: u64) -> u32
    ensures { result ≡ length (requirements_of all flip out) }
{
    if out == 0 {
        1
    } else {
        sets::size_of(families::without_of(out, all))
    }
}

// How many requirements the families of a list have, modulo 2 ^ 64.
fn count_families(fs: &[u64]) -> usize
    ensures { result ≡ length (requirements_in fs.now) % 2 ^ 64 }
{
    let mut count: usize = 0;
    let (families, _) = fs.as_chunks::<3>();
    for &[all, flip, out] in families {
        count = count.wrapping_add(count_family(all, flip, out) as usize);
    }
    count
}

// How many live requirements there are, modulo 2 ^ 64.
pub fn count_live(n: usize, bits: &[u64], fs: &[u64]) -> usize
    ensures { result ≡ length (live_in n bits.now fs.now) % 2 ^ 64 }
{
    count_pairs(n, bits).wrapping_add(count_families(fs))
}

// The partners of the first state with any, if there is one.
fn first_partners(n: usize, bits: &[u64]) -> Option<u64>
    ensures { FirstPartners n bits.now result }
{
    for i in 0..n.min(64) {
        let p = move_pairs::partners_of(n, bits, i);
        if p != 0 {
            return Some(p);
        }
    }
    None
}

// The second block of a family's lowest requirement; of a family without one, nobody.
fn start_family(all: u64, flip: u64, out: u64) -> u64
    ensures { result ≡ start (requirements_of all flip out) }
{
    if out == 0 {
        return all & flip;
    }
    let o = families::without_of(out, all);
    if o == 0 {
        return 0;
    }
    let k = sets::lowest(o);
    (all & flip) | sets::flipped(0, k)
}

// The same for a list of families: those without a requirement are passed over.
fn start_families(fs: &[u64]) -> u64
    ensures { result ≡ start (requirements_in fs.now) }
{
    let (families, _) = fs.as_chunks::<3>();
    for &[all, flip, out] in families {
        if count_family(all, flip, out) != 0 {
            return start_family(all, flip, out);
        }
    }
    0
}

// Where a bit starts: 1 on the second block of the lowest live requirement. Pairs come before families.
pub fn start_live(n: usize, bits: &[u64], fs: &[u64]) -> u64
    ensures { result ≡ start (live_in n bits.now fs.now) }
{
    match first_partners(n, bits) {
        Some(p) => sets::flipped(0, sets::lowest(p)),
        None => start_families(fs),
    }
}

// The families that the bit b leaves live move to the front, in their order; the answer is how many words they take.
pub fn sift_families(fs: &mut [u64], b: u64) -> usize
    ensures { (result ≡ length (left_families b fs.old)) × (fs.new ≡ sifted_families b fs.old) }
{
    let mut j: usize = 0;
    // By place, since the families move within the slice that they are read from.
    for k in 0..fs.len() / 3 {
        j = left::sift_family(fs, 3 * k, j, b);
    }
    j
}
