// One bit, by gain tables: a move touches only the live requirements that are near, and their members alone.
#![tactic(auto)]

ghost use Rattle.std.specs.Prelude.{◌≡◌, ◌+◌, ◌≤◌, length};
ghost use Rattle.bit_choice.specs.Pass.{going, go_on, passed, passes_by, tallied, built_by};
ghost use Rattle.bit_live.specs.Live.{live_in};
ghost use Rattle.bit_passes.specs.Runs.{built_of, Ran};

use bit_choice::{Built, Passed, Way, best_of, choose, reach};

// Passes on their way: the bit so far, the passes begun for it, their looks, and whether the last of them gained nothing. That is a field, since a run
// keeps its counts either way.
#[derive(Clone, Copy)]
pub struct Run {
    pub bit: u64,
    pub passes: u64,
    pub looks: u64,
    pub done: bool,
}

// What a run has built, where no pass follows.
impl From<Run> for Built {
    ghost from_gives = { λ w r. r ≡ built_of w };

    fn from(w: Run) -> Built {
        Built {
            bit: w.bit,
            passes: w.passes,
            looks: w.looks,
        }
    }
}

// One move of a pass over n states.
fn go_on(n: usize, bits: &[u64], fs: &[u64], w: Way, t: &mut [u32]) -> Way
    requires { n ≤ 64 }
    ensures { going result t.new ≡ go_on n (live_in n bits.now fs.now) (going w t.old) }
{
    let b = w.bit;
    let free = w.free;
    let s = choose(n, free, t);
    let a = sets::flipped(b, s);
    let level = reach(w.level, move_table::level_at(t, s));
    let looks = bit_live::move_live(n, bits, fs, b, s, t);
    let best = w.best;
    Way {
        bit: a,
        free: sets::flipped(free, s),
        level,
        best: best_of(best, a, level, looks as u64),
    }
}

// A pass over n states from the bit b.
fn run_pass(n: usize, bits: &[u64], fs: &[u64], b: u64) -> Passed
    requires { n ≤ 64 }
    ensures { result ≡ passed n (live_in n bits.now fs.now) b }
{
    let mut t = [move_table::LEVEL; 64];
    bit_live::fill_live(n, bits, fs, b, &mut t);
    let none = Passed {
        bit: b,
        level: move_table::LEVEL,
        looks: 0,
    };
    let mut w = Way {
        bit: b,
        free: sets::everyone_of(n),
        level: move_table::LEVEL,
        best: none,
    };
    for _ in 0..n {
        w = go_on(n, bits, fs, w, &mut t);
    }
    w.best
}

// At most k passes more, until one gains nothing.
fn run_some(n: usize, bits: &[u64], fs: &[u64], k: usize, w: Run) -> Run
    requires { n ≤ 64 }
    ensures { Ran n (live_in n bits.now fs.now) k w result }
{
    if w.done {
        return w;
    }
    let mut run = w;
    for _ in 0..k {
        let p = run_pass(n, bits, fs, run.bit);
        run.passes = run.passes.wrapping_add(1);
        run.looks = run.looks.wrapping_add(p.looks);
        if p.level <= move_table::LEVEL {
            run.done = true;
            return run;
        }
        run.bit = p.bit;
    }
    run
}

// Passes from the bit b until none gains: at most one more than there are requirements, since each that is followed by another meets more. They are
// allowed for one family after the other, and for the pairs last, so that no count has to hold them all.
fn run_passes(n: usize, bits: &[u64], fs: &[u64], start: u64) -> Built
    requires { n ≤ 64 }
    ensures { result ≡ tallied 0 0 (passes_by (length (live_in n bits.now fs.now) + 1) n (live_in n bits.now fs.now) start) }
{
    let begun = Run {
        bit: start,
        passes: 0,
        looks: 0,
        done: false,
    };
    let mut w = run_some(n, bits, fs, 1, begun);
    let (families, _) = fs.as_chunks::<3>();
    for &[all, flip, out] in families {
        if w.done {
            return Built::from(w);
        }
        let k = bit_live::count_family(all, flip, out);
        w = run_some(n, bits, fs, k as usize, w);
    }
    let last = run_some(n, bits, fs, bit_live::count_pairs(n, bits), w);
    Built::from(last)
}

// A bit built for the live requirements, from the bit `start`. Of more than 64 states the first 64 are moved.
pub fn build_bit(n: usize, bits: &[u64], fs: &[u64], start: u64) -> Built
    ensures { result ≡ built_by n (live_in n bits.now fs.now) start }
{
    run_passes(n.min(64), bits, fs, start)
}
