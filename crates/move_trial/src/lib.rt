// The trial record, for single moves, by value.
#![tactic(auto)]

mod calls;

ghost use Rattle.std.specs.Prelude.{◌≡◌, ◌<◌, ◌≤◌, length, replicate};
ghost use Rattle.rules.specs.Limits.{most_trial};
ghost use Rattle.rules.specs.Cases.{verdict_numbers};
ghost use Rattle.move_table.specs.Table.{level};
ghost use Rattle.families.specs.Families.{requirements_in};
ghost use Rattle.move_table.specs.Moves.{filled};
ghost use Rattle.move_trial.specs.Record.{stored, taken, turned_down, none, shown, start_of, next_of, move_of, gain_of};

use rules::{Refusal, Refused};

// Three words for each of the most requirements.
const WORDS: usize = 768;

// A trial record: n states, how many requirements it lists, the bit, the states that have moved, the looks so far. Each requirement is a family of its
// own, in three words; the table has each state's level, as passes have it.
#[repr(C)]
#[derive(Clone, Copy)]
pub struct Trial {
    pub states: usize,
    pub count: usize,
    pub bit: u64,
    pub moved: u64,
    pub looks: u64,
    pub families: [u64; WORDS],
    pub table: [u32; 64],
}

// What a start or a move answers: the record, and whether the call was accepted. A refused call hands back a record too, so the two stand side by side.
#[derive(Clone, Copy)]
pub struct Answer {
    pub verdict: Result<(), Refused>,
    pub trial: Trial,
}

// The families of the requirements, one for each, in the first places of an array.
fn families_of(firsts: &[u64], seconds: &[u64]) -> [u64; WORDS]
    requires { (length firsts.now ≤ most_trial) × (length firsts.now ≡ length seconds.now) }
    ensures { result ≡ stored firsts.now seconds.now }
{
    let mut t = [0; WORDS];
    // By place, since the three words of requirement i stand from word 3 * i on.
    for i in 0..firsts.len() {
        t[3 * i] = firsts[i] | seconds[i];
        t[3 * i + 1] = seconds[i];
        t[3 * i + 2] = 0;
    }
    t
}

// The levels of all states at the bit b.
fn levels_at(fs: &[u64], b: u64) -> [u32; 64]
    ensures { result ≡ filled (requirements_in fs.now) b (replicate 64 level) }
{
    let mut t = [move_table::LEVEL; 64];
    move_families::fill_families(fs, b, &mut t);
    t
}

// The record that shows a start.
fn shown_at(n: usize, bit: u64, firsts: &[u64], seconds: &[u64]) -> Trial
    requires { (length firsts.now ≤ most_trial) × (length firsts.now ≡ length seconds.now) }
    ensures { result ≡ shown n bit firsts.now seconds.now }
{
    let count = firsts.len();
    let families = families_of(firsts, seconds);
    let table = levels_at(&families[..3 * count], bit);
    Trial {
        states: n,
        count,
        bit,
        moved: 0,
        looks: 0,
        families,
        table,
    }
}

// The empty record: no states, no requirements, no looks.
fn empty() -> Trial
    ensures { result ≡ none }
{
    Trial {
        states: 0,
        count: 0,
        bit: 0,
        moved: 0,
        looks: 0,
        families: [0; WORDS],
        table: [move_table::LEVEL; 64],
    }
}

// What a call answers that is accepted, and what one that is refused 11.
fn accepted(t: Trial) -> Answer
    ensures { result ≡ taken t }
{
    Answer {
        verdict: Ok(()),
        trial: t,
    }
}

fn refused(t: Trial) -> Answer
    ensures { result ≡ turned_down t }
{
    Answer {
        verdict: Err(Refusal::BadCall.at(0)),
        trial: t,
    }
}

// The record after the move of s.
fn next_of(t: Trial, s: usize) -> Trial
    requires { (t.count ≤ most_trial) × (s < 64) }
    ensures { result ≡ next_of t s }
{
    let bit = t.bit;
    let count = t.count;
    let families = t.families;
    let mut table = t.table;
    let looks = move_families::move_families(&families[..3 * count], bit, s, &mut table);
    Trial {
        states: t.states,
        count,
        bit: sets::flipped(bit, s),
        moved: sets::flipped(t.moved, s),
        looks: t.looks.wrapping_add(looks as u64),
        families,
        table,
    }
}

impl Trial {
    // A record of n states, at a bit, of requirements given as first and second blocks, all of them live. A start that is refused hands
    // back the empty record.
    pub fn start(n: usize, bit: u64, firsts: &[u64], seconds: &[u64]) -> Answer
        ensures { result ≡ start_of n bit firsts.now seconds.now }
    {
        if calls::can_start(n, bit, firsts, seconds) {
            return accepted(shown_at(n, bit, firsts, seconds));
        }
        refused(empty())
    }

    // The record after the move of s; where the move is refused, the same one.
    pub fn make_move(self, s: rules::StateNumber) -> Answer
        ensures { result ≡ move_of self s }
    {
        if calls::can_move(self.states, self.count, self.moved, s.0) {
            return accepted(next_of(self, s.0));
        }
        refused(self)
    }

    // The gain of state s, moved or not; a number that is no state's gains nothing.
    pub fn gain(self, s: rules::StateNumber) -> i64
        ensures { result ≡ gain_of self s }
    {
        let k = s.0;
        if self.states <= k {
            return 0;
        }
        let t = self.table;
        (move_table::level_at(&t, k) as i64) - (move_table::LEVEL as i64)
    }

    // The looks so far.
    pub fn looks(self) -> u64
        ensures { result ≡ self.looks }
    {
        self.looks
    }
}

// 0 for a call that is accepted, else the number of its refusal.
#[tactic(auto, unfolding(rules::specs::Cases::verdict_numbers))]
pub fn number_of(v: Result<(), Refused>) -> u32
    ensures { result ≡ (verdict_numbers v).refusal }
{
    match v {
        Ok(()) => 0,
        Err(why) => why.refusal.number_of(),
    }
}
