// The requirements of a listing, drawn up as families: the pairs, the groups, the dichotomies, three numbers for each family.
#![tactic(auto)]

ghost use Rattle.std.specs.Prelude.{◌≡◌, ◌&&◌, [], ◌++◌, ◌+◌, ◌*◌, ◌≤◌, min, leb, ltb, length, take};
ghost use Rattle.sets.specs.Sets.{size};
ghost use Rattle.rules.specs.Limits.{most_states, most_rows, most_dichotomies};
ghost use Rattle.code_drawing.specs.Drawing.{stands_in, family, with_group, with_groups, dichotomy_words, pairs_of, families_of, first_families, all_families, Drew};

use rules::{Listing, Requirement, Row};

// Room for the families of the most rows and the most dichotomies, and with those of the pairs.
pub const WORDS: usize = 3 * (rules::MOST_ROWS + rules::MOST_DICHOTOMIES);

pub const ALL_WORDS: usize = 3 * (rules::MOST_STATES + rules::MOST_ROWS + rules::MOST_DICHOTOMIES);

// Whether one of the families has g for its members in common.
fn stands(fs: &[u64], g: u64) -> bool
    ensures { result ≡ stands_in g fs.now }
{
    let (families, _) = fs.as_chunks::<3>();
    families.iter().any(|family| family[0] == g)
}

// One family more, behind the first `at` words.
fn put_family(fs: &mut [u64], at: usize, all: u64, flip: u64, out: u64) -> usize
    requires { at + 3 ≤ length fs.old }
    ensures { (result ≡ at + 3) × Drew fs.old (take at fs.old ++ family all flip out) result fs.new }
{
    families::put(fs, at, all, flip, out);
    at + 3
}

// Whether a group has 2 to n - 1 states.
fn is_asking(n: usize, g: u64) -> bool
    ensures { result ≡ (leb 2 (size g) && ltb (size g) n) }
{
    let members = sets::size_of(g) as usize;
    2 <= members && members < n
}

// The family of a group, if it asks and does not stand there yet. A group that asks nothing asks nothing the second time either.
fn draw_group(fs: &mut [u64], at: usize, n: usize, g: u64) -> usize
    requires { at + 3 ≤ length fs.old }
    ensures { Drew fs.old (with_group n (take at fs.old) g) result fs.new }
{
    if !is_asking(n, g) {
        return at;
    }
    if stands(&fs[..at], g) {
        return at;
    }
    put_family(fs, at, g, 0, families::without_of(sets::everyone_of(n), g))
}

// The families of the groups of some rows.
fn draw_rows(n: usize, rows: &[Row], fs: &mut [u64], at: usize) -> usize
    requires { at + 3 * length rows.now ≤ length fs.old }
    ensures { Drew fs.old (with_groups n (take at fs.old) rows.now) result fs.new }
{
    let mut k = at;
    for row in rows {
        k = draw_group(fs, k, n, row.group);
    }
    k
}

// The families of some dichotomies.
fn draw_dichotomies(asked: &[Requirement], fs: &mut [u64], at: usize) -> usize
    requires { at + 3 * length asked.now ≤ length fs.old }
    ensures { Drew fs.old (take at fs.old ++ dichotomy_words asked.now) result fs.new }
{
    let mut k = at;
    for d in asked {
        k = put_family(fs, k, d.first | d.second, d.second, 0);
    }
    k
}

// The families of the pairs: each state with the states behind it.
fn draw_pairs(n: usize, fs: &mut [u64]) -> usize
    requires { (n ≤ most_states) × (3 * most_states ≤ length fs.old) }
    ensures { Drew fs.old (pairs_of n) result fs.new }
{
    let all = sets::everyone_of(n);
    let mut k: usize = 0;
    for i in 0..n.saturating_sub(1) {
        let behind = families::without_of(all, sets::everyone_of(i + 1));
        k = put_family(fs, k, 1 << i, 0, behind);
    }
    k
}

// The first entries of a table, as many as are counted: where more are counted than there are places for, those that have places.
fn counted<T>(table: &[T], count: usize) -> &[T]
    ensures { result.now ≡ take count table.now }
{
    &table[..count.min(table.len())]
}

// The families of a listing's groups and dichotomies, of any Listing value. The answer is how many words they take.
pub fn draw(t: Listing, fs: &mut [u64; WORDS]) -> usize
    ensures { Drew fs.old (families_of t) result fs.new }
{
    let rows = counted(&t.table, t.rows);
    let asked = counted(&t.asked, t.dichotomies);
    let k = draw_rows(t.head.states, rows, fs, 0);
    draw_dichotomies(asked, fs, k)
}

// The families of the pairs of n states, of more than 64 states the first 64, and of the groups of some rows, where there is room for them.
fn draw_before(n: usize, rows: &[Row], fs: &mut [u64]) -> usize
    requires { (length rows.now ≤ most_rows) × (3 * most_states + 3 * most_rows ≤ length fs.old) }
    ensures { Drew fs.old (with_groups n (pairs_of (min n most_states)) rows.now) result fs.new }
{
    let k = draw_pairs(n.min(rules::MOST_STATES), fs);
    draw_rows(n, rows, fs, k)
}

// The families of a listing's pairs and groups.
pub fn draw_first(t: Listing, fs: &mut [u64; ALL_WORDS]) -> usize
    ensures { Drew fs.old (first_families t) result fs.new }
{
    draw_before(t.head.states, counted(&t.table, t.rows), fs)
}

// The families of all that a listing asks.
pub fn draw_all(t: Listing, fs: &mut [u64; ALL_WORDS]) -> usize
    ensures { Drew fs.old (all_families t) result fs.new }
{
    let rows = counted(&t.table, t.rows);
    let asked = counted(&t.asked, t.dichotomies);
    let k = draw_before(t.head.states, rows, fs);
    draw_dichotomies(asked, fs, k)
}
