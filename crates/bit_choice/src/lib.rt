// The choices in building a bit: which state moves next, the level that its move reaches, the best bit so far, and which way round it is kept.
#![tactic(auto)]

ghost use Rattle.std.specs.Prelude.{◌≡◌, min};
ghost use Rattle.rules.specs.OneBit.{complemented};
ghost use Rattle.bit_choice.specs.Pass.{highest, reached, best_of};

// What a pass keeps: the bit, its level (that of a gain of 0 where nothing was gained), and the looks of all its moves.
#[derive(Clone, Copy)]
pub struct Passed {
    pub bit: u64,
    pub level: u32,
    pub looks: u64,
}

// A pass on its way, beside its table: the bit, who is free, the level reached, and the best so far.
#[derive(Clone, Copy)]
pub struct Way {
    pub bit: u64,
    pub free: u64,
    pub level: u32,
    pub best: Passed,
}

// A bit that is done, the passes begun for it, and their looks.
#[derive(Clone, Copy)]
pub struct Built {
    pub bit: u64,
    pub passes: u64,
    pub looks: u64,
}

// The free state below n with the highest level, the lowest number on ties. It works from the table as it stands, and visits the free states alone.
pub fn choose(n: usize, free: u64, t: &[u32]) -> usize
    ensures { result ≡ highest free t.now n }
{
    let all = free & sets::everyone_of(n);
    if all == 0 {
        return 0;
    }
    let mut r = sets::lowest(all);
    let mut rest = sets::without_lowest(all);
    while rest != 0 {
        let i = sets::lowest(rest);
        if move_table::level_at(t, r) < move_table::level_at(t, i) {
            r = i;
        }
        rest = sets::without_lowest(rest);
    }
    r
}

// The best so far, or what is met now if that is more.
pub fn best_of(p: Passed, b: u64, now: u32, looks: u64) -> Passed
    ensures { result ≡ best_of p b now looks }
{
    let looks = p.looks.wrapping_add(looks);
    if p.level < now {
        Passed {
            bit: b,
            level: now,
            looks,
        }
    } else {
        Passed { looks, ..p }
    }
}

// The level reached by a move of this level: what a gain of 0 has is taken off once.
pub fn reach(now: u32, gain: u32) -> u32
    ensures { result ≡ reached now gain }
{
    now.wrapping_add(gain).wrapping_sub(move_table::LEVEL)
}

// A bit of n states, complemented if state 0 has value 1; of more than 64 states the first 64.
pub fn complement(n: usize, b: u64) -> u64
    ensures { result ≡ complemented (min n 64) b }
{
    if !sets::member(b, 0) {
        return b;
    }
    sets::everyone_of(n).saturating_sub(b)
}
