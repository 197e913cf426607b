// The end of a KISS2 text: the listing so made, a `.s` or `.p` that disagrees, and bytes behind `.e`; and a text that breaks off.
ghost use Rattle.std.specs.Prelude.{◌≡◌, map, ◌<◌, ◌≤◌};
ghost use Rattle.rules.specs.Limits.{most_states};
ghost use Rattle.rules.specs.Text.{lines_of};
ghost use Rattle.rules.specs.Kiss.{cut_to, listing_of, disagrees, disagreement, kiss_made};
ghost use Rattle.read_kiss.specs.Walks.{after_end, broken};

use read_answers::or_else;
use rules::{Head, KissHeads, Listing, Refusal, Refused, Row, Told};

// The rows with each group cut to the n states that there are.
fn cut_table(n: usize, table: [Row; rules::MOST_ROWS]) -> [Row; rules::MOST_ROWS]
    requires { n ≤ most_states }
    ensures { result ≡ map (cut_to n) table }
{
    let all = sets::everyone_of(n);
    let mut next = table;
    for i in 0..rules::MOST_ROWS {
        let mut row = table[i];
        row.group = row.group & all;
        next[i] = row;
    }
    next
}

// The listing of n states that the lines have made.
fn listing_of(h: KissHeads, n: usize, rows: usize, table: [Row; rules::MOST_ROWS]) -> Listing
    requires { n ≤ most_states }
    ensures { result ≡ listing_of h n rows table }
{
    let head = Head {
        states: n,
        inputs: h.inputs,
        outputs: h.outputs,
        width: 0,
        keeps: false,
        moore: false,
    };
    let whole = cut_table(n, table);
    let mut t = read_answers::blank_listing();
    t.head = head;
    t.rows = rows;
    t.table = whole;
    t
}

// Whether a header told another number than the count: 12 at its line.
fn disagreement_of(t: Told, count: usize) -> Result<(), Refused>
    ensures { result ≡ disagrees t count }
{
    if t.line == 0 {
        return Ok(());
    }
    if t.number == count {
        return Ok(());
    }
    Err(Refusal::Names.at(t.line))
}

// `.s` against the n names and `.p` against the lines of rows, the earlier line first.
fn first_disagreement(h: KissHeads, n: usize) -> Result<(), Refused>
    ensures { result ≡ disagreement h n }
{
    let states = disagreement_of(h.states, n);
    let products = disagreement_of(h.products, h.lines);
    if h.states.line < h.products.line {
        return or_else(states, products);
    }
    or_else(products, states)
}

// After `.e`, which stood on line k: bytes behind it are 3, on the line after its own.
pub fn after_end(k: usize, rest: &[u8]) -> Result<(), Refused>
    requires { k < 18446744073709551615 }
    ensures { result ≡ after_end k (lines_of rest.now) }
{
    if rest.len() != 0 {
        return Err(Refusal::Place.at(k + 1));
    }
    Ok(())
}

// When all lines are read, behind n names: 12, then 6.
pub fn finish(
    h: KissHeads,
    n: usize,
    rows: usize,
    table: [Row; rules::MOST_ROWS],
) -> Result<Listing, Refused>
    requires { n ≤ most_states }
    ensures { result ≡ kiss_made h n rows table }
{
    let t = listing_of(h, n, rows, table);
    let wrong = first_disagreement(h, n);
    let made = t.table;
    let clash = read_conflict::first_clash(t.rows, made);
    or_else(wrong, clash)?;
    Ok(t)
}

// Why the text breaks off with what stands behind the last LF, as line k.
pub fn break_off(k: usize, h: KissHeads, l: &[u8]) -> Refused
    ensures { result ≡ broken k h l.now }
{
    if l.len() == 0 {
        return Refusal::Place.at(k);
    }
    if read_kiss_lines::heads::in_place(read_kiss_lines::marks::mark_of(l), h) {
        return Refusal::BadLine.at(k);
    }
    Refusal::Place.at(k)
}
