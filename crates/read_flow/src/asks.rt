// The dichotomies of a table: the sets of each column, and a dichotomy for each two of them.
ghost use Rattle.std.specs.Prelude.{◌≡◌, ◌&&◌, map, ◌<◌, ◌≤◌, length, take, eqb};
ghost use Rattle.rules.specs.Limits.{most_states, most_columns};
ghost use Rattle.sets.specs.Sets.{has};
ghost use Rattle.rules.specs.Text.{set_of};
ghost use Rattle.rules.specs.FlowTable.{is_state, sets_of, set_pairs, flow_asks};
ghost use Rattle.read_flow.specs.Table.{most_places, columns_in};
ghost use Rattle.read_flow.specs.Gathering.{nothing, between, with_asked, with_all, no_sets, with_entry};

use rules::Requirement;

// How many dichotomies there were, if more than 64.
const MANY: usize = 65;

// The first 64 dichotomies, and how many there were, or that there were more.
#[derive(Clone, Copy)]
pub struct Gathered {
    pub count: usize,
    pub asked: [Requirement; rules::MOST_DICHOTOMIES],
}

// The sets of a column, in the first places of a table, and the destinations met so far.
#[derive(Clone, Copy)]
pub struct Sets {
    pub count: usize,
    pub sets: [u64; rules::MOST_STATES],
    pub met: u64,
}

pub fn none_asked() -> Gathered
    ensures { result ≡ nothing }
{
    let asked = Requirement {
        first: 0,
        second: 0,
    };
    let all = [asked; rules::MOST_DICHOTOMIES];
    Gathered {
        count: 0,
        asked: all,
    }
}

// One dichotomy more.
fn with_asked(g: Gathered, first: u64, second: u64) -> Gathered
    ensures { result ≡ with_asked (between first second) g }
{
    let n = g.count;
    let mut more = g;
    if rules::MOST_DICHOTOMIES <= n {
        more.count = MANY;
        return more;
    }
    more.asked[n] = Requirement {
        first: first,
        second: second,
    };
    more.count = n + 1;
    more
}

// A set with each of some others.
fn with_others(g: Gathered, first: u64, others: &[u64]) -> Gathered
    ensures { result ≡ with_all (map (between first) others.now) g }
{
    let mut more = g;
    for &other in others {
        more = with_asked(more, first, other);
    }
    more
}

// Each two of some sets.
fn with_pairs(g: Gathered, sets: &[u64]) -> Gathered
    ensures { result ≡ with_all (set_pairs sets.now) g }
{
    let mut more = g;
    for (i, &first) in sets.iter().enumerate() {
        more = with_others(more, first, &sets[i + 1..]);
    }
    more
}

// The states that go to d.
fn set_of(column: &[u8], d: u8) -> u64
    requires { length column.now ≤ most_states }
    ensures { result ≡ set_of d column.now }
{
    let mut m: u64 = 0;
    for i in (0..column.len()).rev() {
        m = m * 2 + read_fields::digit_of(column[i], d);
    }
    m
}

fn no_sets() -> Sets
    ensures { result ≡ no_sets }
{
    let sets = [0; rules::MOST_STATES];
    Sets {
        count: 0,
        sets: sets,
        met: 0,
    }
}

// Whether d is a state that was not met.
fn is_new(met: u64, d: u8) -> bool
    ensures { result ≡ (is_state d && eqb (has met d) 0) }
{
    d < rules::NO_STATE && !sets::member(met, d as usize)
}

// The sets met, with that of d, if it is a destination that was not met.
fn with_entry(got: Sets, column: &[u8], d: u8) -> Sets
    requires { (length column.now ≤ most_states) × (got.count < most_states) }
    ensures { result ≡ with_entry column.now d got }
{
    let n = got.count;
    let met = got.met;
    if !is_new(met, d) {
        return got;
    }
    let at = d as usize;
    let mut more = got;
    more.sets[n] = set_of(column, d);
    more.count = n + 1;
    more.met = met | (1 << at);
    more
}

// The sets of a column, by their lowest members.
fn sets_of(column: &[u8]) -> Sets
    requires { length column.now ≤ most_states }
    ensures { (result.count ≤ most_states) × (length result.sets ≡ most_states) × (take result.count result.sets ≡ sets_of column.now) }
{
    let mut got = no_sets();
    for &d in column {
        got = with_entry(got, column, d);
    }
    got
}

// The dichotomies of one column.
fn with_column(g: Gathered, column: &[u8]) -> Gathered
    requires { length column.now ≤ most_states }
    ensures { result ≡ with_all (set_pairs (sets_of column.now)) g }
{
    let got = sets_of(column);
    let n = got.count;
    let sets = got.sets;
    with_pairs(g, &sets[0..n])
}

// Those of all columns of a table of n states.
pub fn gather(table: &[u8], n: usize, columns: usize) -> Gathered
    requires { (n ≤ most_states) × (columns ≤ most_columns) × (length table.now ≡ most_places) }
    ensures { result ≡ with_all (flow_asks (columns_in table.now n columns)) nothing }
{
    let mut more = none_asked();
    for c in 0..columns {
        let at = c * rules::MOST_STATES;
        more = with_column(more, &table[at..at + n]);
    }
    more
}
