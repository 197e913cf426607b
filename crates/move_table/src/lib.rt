// The gain table: each state's gain as a level, put up and down; specs/ has what a list of requirements adds to it, and what a move changes.
#![tactic(auto)]

ghost use Rattle.std.specs.Prelude.{◌≡◌, ◌+◌, ◌%◌, ◌^◌, set, get_or};
ghost use Rattle.move_table.specs.Table.{raised};

// A level of the gain table for a gain of 0, far from both ends of its 32 digits.
pub const LEVEL: u32 = 2147483648;

// `by` added at state k, if the table has it, modulo 2 ^ 32.
pub fn raise_one(t: &mut [u32], k: usize, by: u32)
    ensures { t.new ≡ set t.old k ((get_or t.old k 0 + by) % 2 ^ 32) }
{
    if k < t.len() {
        t[k] = t[k].wrapping_add(by);
    }
}

// `by` added at each member of m. Each turn takes the lowest member out, so the members alone are touched.
pub fn raise(t: &mut [u32], m: u64, by: u32)
    ensures { t.new ≡ raised by m 0 t.old }
{
    let mut rest = m;
    while rest != 0 {
        let k = sets::lowest(rest);
        raise_one(t, k, by);
        rest = sets::without_lowest(rest);
    }
}

// The level of state k, 0 where the table has not so many.
pub fn level_at(t: &[u32], k: usize) -> u32
    ensures { result ≡ get_or t.now k 0 }
{
    t.get(k).copied().unwrap_or(0)
}
