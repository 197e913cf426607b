// The rows of a listing and of a cover as numbers, each at its place of two tables: where it fires, and what it says.
#![tactic(auto)]

ghost use Rattle.std.specs.Prelude.{◌≡◌, [], ◌∷◌, ◌+◌, ◌<◌, ◌≤◌, min, length, take, drop};
ghost use Rattle.rules.specs.Limits.{most_states};
ghost use Rattle.rules.specs.Listing.{all_rows};
ghost use Rattle.judge_search.specs.Rows.{all_row_places};
ghost use Rattle.judge_rows.specs.Rows.{laid, firing_list, saying_list, code_at, row_firing, row_saying, listing_laid, marks_of, takes_digit, states_taking, line_firing, line_saying, line_laid};

use judge_search::{ALL_ROWS, FIRES_WORDS, Firing, SAYS_WORDS, Said};
use read_pieces::{field, first_of};
use rules::{CodeTable, Listing, Row};

// Characters `0 1 -`, at most 64 of them: those that are 1, and the dashes.
#[derive(Clone, Copy)]
struct Marks {
    ones: u64,
    dashes: u64,
}

// A row where it fires, at its place.
fn put_firing(fires: &mut [u64; FIRES_WORDS], row: usize, f: Firing)
    requires { row < all_row_places }
    ensures { fires.new ≡ laid 3 row (firing_list f ∷ []) fires.old }
{
    let at = row * 3;
    fires[at] = f.ones;
    fires[at + 1] = f.dashes;
    fires[at + 2] = f.states;
}

// What a row says, at its place.
fn put_saying(says: &mut [u64; SAYS_WORDS], row: usize, s: Said)
    requires { row < all_row_places }
    ensures { says.new ≡ laid 4 row (saying_list s ∷ []) says.old }
{
    let at = row * 4;
    says[at] = s.a;
    says[at + 1] = s.b;
    says[at + 2] = s.c;
    says[at + 3] = s.d;
}

// The code of the state of a set of one; no digit of none.
fn code_at(codes: [u64; rules::MOST_STATES], next: u64) -> u64
    ensures { result ≡ code_at codes next }
{
    if next == 0 {
        return 0;
    }
    codes[sets::lowest(next)]
}

// Where a row of a listing fires.
fn firing_of(row: Row) -> Firing
    ensures { result ≡ row_firing row }
{
    Firing {
        ones: row.input.ones as u64,
        dashes: row.input.dashes as u64,
        states: row.group,
    }
}

// What it says.
fn saying_of(codes: [u64; rules::MOST_STATES], row: Row) -> Said
    ensures { result ≡ row_saying codes row }
{
    Said {
        a: row.next,
        b: code_at(codes, row.next),
        c: row.outputs.ones as u64,
        d: row.outputs.dashes as u64,
    }
}

// All rows of a listing, from the first place on.
pub fn put_listing(
    t: Listing,
    codes: [u64; rules::MOST_STATES],
    fires: &mut [u64; FIRES_WORDS],
    says: &mut [u64; SAYS_WORDS],
)
    ensures { (fires.new, says.new) ≡ listing_laid codes 0 (all_rows t) (fires.old, says.old) }
{
    let n = sets::least(t.rows, rules::MOST_ROWS);
    let all = write_rows::row_count(t.head, t.rows);
    for k in 0..all {
        let place = sets::least(k, rules::MOST_ROWS - 1);
        let state = write_rows::state_at(n, k);
        let row = write_rows::row_at(n, k, t.table[place], t.said[state]);
        put_firing(fires, k, firing_of(row));
        put_saying(says, k, saying_of(codes, row));
    }
}

// What some characters say.
fn marks_of(f: &[u8]) -> Marks
    ensures { result ≡ marks_of f.now }
{
    let n = f.len();
    let Some(places) = read_fields::places_in(f, 64, n, b'0', b'1', b'-') else {
        return Marks { ones: 0, dashes: 0 };
    };
    Marks {
        ones: places.second,
        dashes: places.third,
    }
}

// 1 where characters take a code.
fn takes_digit(p: Marks, code: u64) -> u64
    ensures { result ≡ takes_digit p code }
{
    u64::from((p.ones ^ code) & !p.dashes == 0)
}

// The first of so many states whose codes some characters take.
fn states_taking(p: Marks, codes: [u64; rules::MOST_STATES], states: usize) -> u64
    requires { states ≤ most_states }
    ensures { result ≡ states_taking p (take states codes) }
{
    let mut set: u64 = 0;
    for s in (0..states).rev() {
        set = set * 2 + takes_digit(p, codes[s]);
    }
    set
}

// What stands from character k of a field on.
fn rest_of(f: &[u8], k: usize) -> &[u8]
    ensures { result.now ≡ drop k f.now }
{
    let n = f.len();
    if n < k {
        return &f[n..];
    }
    &f[k..]
}

// Where a line of a cover fires: at its inputs, and in those of so many states whose codes it takes.
fn line_firing(l: &[u8], inputs: usize, codes: [u64; rules::MOST_STATES], states: usize) -> Firing
    requires { states ≤ most_states }
    ensures { result ≡ line_firing inputs (take states codes) l.now }
{
    let f = field(l, 0);
    let at = marks_of(first_of(f, inputs));
    let code = marks_of(rest_of(f, inputs));
    Firing {
        ones: at.ones,
        dashes: at.dashes,
        states: states_taking(code, codes, states),
    }
}

// What it says: the bits of the next code, and the outputs.
fn line_saying(l: &[u8], width: usize) -> Said
    ensures { result ≡ line_saying width l.now }
{
    let f = field(l, 1);
    let next = marks_of(first_of(f, width));
    let outputs = marks_of(rest_of(f, width));
    Said {
        a: next.ones,
        b: next.dashes,
        c: outputs.ones,
        d: outputs.dashes,
    }
}

// A line of a cover, at the place of that row; past the last place nothing.
pub fn put_line(
    l: &[u8],
    row: usize,
    inputs: usize,
    states: usize,
    codes: CodeTable,
    fires: &mut [u64; FIRES_WORDS],
    says: &mut [u64; SAYS_WORDS],
)
    ensures { (fires.new, says.new) ≡ line_laid inputs (take (min states most_states) codes.table) codes.width row l.now (fires.old, says.old) }
{
    if ALL_ROWS <= row {
        return;
    }
    let n = sets::least(states, rules::MOST_STATES);
    let table = codes.table;
    put_firing(fires, row, line_firing(l, inputs, table, n));
    put_saying(says, row, line_saying(l, codes.width));
}
