// The rows of a cover: those of a listing and those that the states of a Moore machine add, which of them have a line, and which dashes a row keeps.
#![tactic(auto)]

ghost use Rattle.std.specs.Prelude.{◌≡◌, ◌<◌, cond, [], ◌∷◌, length, slice_index_or};
ghost use Rattle.std.specs.Int.Bits.{bit_or};
ghost use Rattle.rules.specs.Listing.{no_row, all_rows, meets};
ghost use Rattle.rules.specs.Cover.{next_code, zeros, is_left_out, printed_rows};
ghost use Rattle.write_rows.specs.Rows.{row_count, state_at, row_at, row_of, said_one, kept_row};

use rules::{Head, Listing, Pattern, Row};

// How many rows a listing with so many has in all: under `MO` each state adds one.
pub fn row_count(head: Head, rows: usize) -> usize
    ensures { result ≡ row_count head rows }
{
    let n = sets::least(rows, rules::MOST_ROWS);
    if !head.moore {
        return n;
    }
    n + sets::least(head.states, rules::MOST_STATES)
}

// The state that adds row k, behind n others; some state where none does.
pub fn state_at(n: usize, k: usize) -> usize
    ensures { result ≡ state_at n k }
{
    sets::least(k.saturating_sub(n), rules::MOST_STATES - 1)
}

// Row k of all: one of the n rows of the listing, or that of a state with these outputs.
pub fn row_at(n: usize, k: usize, row: Row, outputs: Pattern) -> Row
    ensures { result ≡ row_at n k row outputs }
{
    if k < n {
        return row;
    }
    let group = 1 << state_at(n, k);
    Row {
        input: Pattern {
            ones: 0,
            dashes: rules::EVERY_INPUT,
        },
        group,
        next: 0,
        outputs,
        line: 0,
    }
}

// Row k of all that a listing says; some row behind the last.
pub fn row_of(t: &Listing, k: usize) -> Row
    ensures made { result ≡ row_of t.now k }
    ensures listed { k < length (all_rows t.now) → result ≡ slice_index_or (all_rows t.now) k no_row }
{
    let n = sets::least(t.rows, rules::MOST_ROWS);
    let place = sets::least(k, rules::MOST_ROWS - 1);
    let state = state_at(n, k);
    row_at(n, k, t.table[place], t.said[state])
}

// Whether the code of a row's next state is all zeros.
fn is_zeros(bits: &[u64], next: u64) -> bool
    ensures { result ≡ zeros (next_code bits.now next) }
{
    for &b in bits {
        if b & next != 0 {
            return false;
        }
    }
    true
}

// Whether a cover by these bits leaves a row out.
pub fn is_left_out(head: Head, bits: &[u64], row: Row) -> bool
    ensures { result ≡ is_left_out head bits.now row }
{
    !head.keeps && row.outputs.ones == 0 && row.outputs.dashes == 0 && is_zeros(bits, row.next)
}

// How many lines a row has: one or none.
fn line_count(head: Head, bits: &[u64], row: Row) -> usize
    ensures { result ≡ length (printed_rows head bits.now (row ∷ [])) }
{
    if is_left_out(head, bits, row) { 0 } else { 1 }
}

// How many rows of all that a listing says have a line.
pub fn printed_count(t: Listing, bits: &[u64]) -> usize
    ensures { result ≡ length (printed_rows t.head bits.now (all_rows t)) }
{
    let mut count = 0;
    for k in 0..row_count(t.head, t.rows) {
        count += line_count(t.head, bits, row_of(&t, k));
    }
    count
}

// The outputs of a mask, and those that the row q says are 1, if it meets `row`.
fn with_said(row: Row, q: Row, mask: u32) -> u32
    ensures { result ≡ cond (meets row q) (bit_or mask q.outputs.ones) mask }
{
    if sharing::meet(row, q) {
        mask | q.outputs.ones
    } else {
        mask
    }
}

// The outputs that `row`, or a row of all that meets it, says are 1.
fn said_one(t: Listing, row: Row) -> u32
    ensures { result ≡ said_one row row.outputs.ones (all_rows t) }
{
    let mut mask = row.outputs.ones;
    for k in 0..row_count(t.head, t.rows) {
        mask = with_said(row, row_of(&t, k), mask);
    }
    mask
}

// A row of the listing with the dashes that it keeps.
pub fn kept_row(t: Listing, row: Row) -> Row
    ensures { result ≡ kept_row (all_rows t) row }
{
    let ones = row.outputs.ones;
    let free = row.outputs.dashes;
    let dashes = free ^ (free & said_one(t, row));
    Row {
        outputs: Pattern { ones, dashes },
        ..row
    }
}
