// The live pairs, from the bits built so far: the gain table is filled with them, and a state is moved.
#![tactic(auto)]

ghost use Rattle.std.specs.Prelude.{◌≡◌, ◌+◌, ◌-◌, ◌%◌, ◌^◌};
ghost use Rattle.sets.specs.Sets.{size};
ghost use Rattle.move_table.specs.Moves.{filled};
ghost use Rattle.move_pairs.specs.Pairs.{live_pairs, like_of, others_of, partners_of, pairs_put, pairs_swayed, pairs_added};

// The states below n but s; none where s is not one of them.
fn others_of(n: usize, s: usize) -> u64
    ensures { result ≡ others_of n s }
{
    let everyone = sets::everyone_of(n);
    if sets::member(everyone, s) {
        sets::flipped(everyone, s)
    } else {
        0
    }
}

// Those of the states p that have the value of s at the bit b.
fn like_of(p: u64, b: u64, s: usize) -> u64
    ensures { result ≡ like_of p b s }
{
    if sets::member(b, s) {
        p & b
    } else {
        p ^ (p & b)
    }
}

// The partners of state s: the other states on which every bit has the value that it has on s. Once there is none, no bit brings one.
pub fn partners_of(n: usize, bits: &[u64], s: usize) -> u64
    ensures { result ≡ partners_of n bits.now s }
{
    let mut p = others_of(n, s);
    for &bit in bits {
        if p == 0 {
            return 0;
        }
        p = like_of(p, bit, s);
    }
    p
}

// What the move of s changes, where these partners have its value and those have not.
fn put_pairs(like: u64, unlike: u64, s: usize, t: &mut [u32])
    ensures { t.new ≡ pairs_put like unlike s t.old }
{
    move_table::raise(t, like, 4294967294);
    move_table::raise(t, unlike, 2);
    let many = sets::size_of(unlike);
    move_table::raise_one(t, s, many.wrapping_sub(sets::size_of(like)));
}

// The move of s at the bit b, where p are the partners of s.
fn sway_partners(p: u64, b: u64, s: usize, t: &mut [u32])
    ensures { t.new ≡ pairs_swayed p b s t.old }
{
    let ones = p & b;
    if sets::member(b, s) {
        put_pairs(ones, p ^ ones, s, t);
    } else {
        put_pairs(p ^ ones, ones, s, t);
    }
}

// The move of s at the bit b, for the live pairs, with the moved state's own change by half: every live pair of s is looked at.
pub fn sway_pairs(n: usize, bits: &[u64], b: u64, s: usize, t: &mut [u32]) -> usize
    ensures { (result ≡ size (partners_of n bits.now s)) × (t.new ≡ pairs_swayed (partners_of n bits.now s) b s t.old) }
{
    let p = partners_of(n, bits, s);
    sway_partners(p, b, s, t);
    sets::size_of(p) as usize
}

// What the partners p of state i add to its level at the bit b.
fn add_pairs(p: u64, b: u64, i: usize, t: &mut [u32])
    ensures { t.new ≡ pairs_added b i p t.old }
{
    let ones = p & b;
    let x = sets::size_of(ones);
    let y = sets::size_of(p ^ ones);
    let by = if sets::member(b, i) {
        x.wrapping_sub(y)
    } else {
        y.wrapping_sub(x)
    };
    move_table::raise_one(t, i, by);
}

// What all the live pairs add to the table at the bit b.
pub fn fill_pairs(n: usize, bits: &[u64], b: u64, t: &mut [u32])
    ensures { t.new ≡ filled (live_pairs n bits.now) b t.old }
{
    for i in 0..n.min(64) {
        add_pairs(partners_of(n, bits, i), b, i, t);
    }
}
