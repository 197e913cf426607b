// The encoded machine: the lines of a cover as masks, and the next code that those of them give that fire at an input vector and a code. Digit k of a code
// is that of bit k.
#![tactic(auto)]

ghost use Rattle.std.specs.Prelude.{◌≡◌, Bool, ℕ, ◌^◌, ◌≤◌, ◌<◌, length, take};
ghost use Rattle.rules.specs.Text.{digit};
ghost use Rattle.rules.specs.Limits.{most_bits, most_lines};
ghost use Rattle.rules.specs.Listing.{all_rows};
ghost use Rattle.run_encoded.specs.Terms.{some_at, all_at, mask_of, term_of, no_terms, terms_with, terms_by, code_for, terms_for, takes_code, code_with, code_by};

use rules::{Head, Listing, Pattern, Row};

// The most lines that the rows of a cover have.
pub const MOST_TERMS: usize = 192;

// A row of a cover as its line says it: its input; its face, which takes the codes between a lowest and a highest; and the next code.
#[derive(Clone, Copy)]
pub struct Term {
    pub input: Pattern,
    pub low: u64,
    pub high: u64,
    pub next: u64,
}

// The rows of a cover, in the first places of a table.
#[derive(Clone, Copy)]
pub struct Terms {
    pub count: usize,
    pub table: [Term; MOST_TERMS],
}

// The mask of the bits for which `holds` is true: digit k is that of bit k.
fn mask_where<F: Fn(u64) -> bool>(bits: &[u64], holds: F) -> u64
    requires few { length bits.now ≤ most_bits }
    requires callable { F.IsAlwaysCallable holds }
    ensures { (p : ℕ → Bool) → ((b : ℕ) (r : Bool) → b < 2 ^ 64 → F.post holds b r → r ≡ p b) → result ≡ mask_of (λ b. digit (p b)) bits.now }
{
    let mut mask = 0;
    for k in (0..bits.len()).rev() {
        mask = mask * 2 + holds(bits[k]) as u64;
    }
    mask
}

// The bits in which some state of m has value 1.
fn some_mask(bits: &[u64], m: u64) -> u64
    requires { length bits.now ≤ most_bits }
    ensures { result ≡ mask_of (some_at m) bits.now }
{
    mask_where(bits, |b| b & m != 0)
}

// The bits in which every state of m has value 1.
fn all_mask(bits: &[u64], m: u64) -> u64
    requires { length bits.now ≤ most_bits }
    ensures { result ≡ mask_of (all_at m) bits.now }
{
    mask_where(bits, |b| b & m == m)
}

// The code of the state s; no digit of more bits, or of a state past them, than there can be.
pub fn code_of(bits: &[u64], s: usize) -> u64
    ensures { result ≡ code_for bits.now s }
{
    if rules::MOST_BITS < bits.len() || rules::MOST_STATES <= s {
        return 0;
    }
    some_mask(bits, 1 << s)
}

// A row as its line says it.
fn term_of(head: Head, bits: &[u64], row: Row) -> Term
    requires { length bits.now ≤ most_bits }
    ensures { result ≡ term_of head bits.now row }
{
    let group = row.group & sets::everyone_of(head.states);
    let high = some_mask(bits, group);
    let low = high & all_mask(bits, group);
    let next = some_mask(bits, row.next);
    Term {
        input: row.input,
        low,
        high,
        next,
    }
}

// The rows with one more, if it has a line.
fn terms_with(head: Head, bits: &[u64], terms: Terms, row: Row) -> Terms
    requires { (length bits.now ≤ most_bits) × (terms.count < most_lines) }
    ensures { result ≡ terms_with head bits.now terms row }
{
    if write_rows::is_left_out(head, bits, row) {
        return terms;
    }
    let mut all = terms;
    let n = all.count;
    all.table[n] = term_of(head, bits, row);
    all.count = n + 1;
    all
}

// No rows.
fn no_terms() -> Terms
    ensures { result ≡ no_terms }
{
    let term = Term {
        input: Pattern { ones: 0, dashes: 0 },
        low: 0,
        high: 0,
        next: 0,
    };
    Terms {
        count: 0,
        table: [term; MOST_TERMS],
    }
}

// The rows of a cover of a listing by these bits, which are no more than there can be.
fn terms_in(t: Listing, bits: &[u64]) -> Terms
    requires { length bits.now ≤ most_bits }
    ensures { result ≡ terms_by t.head bits.now no_terms (all_rows t) }
{
    let mut terms = no_terms();
    for k in 0..write_rows::row_count(t.head, t.rows) {
        terms = terms_with(t.head, bits, terms, write_rows::row_of(&t, k));
    }
    terms
}

// The rows of a cover of a listing by these bits; none by more bits than there can be.
pub fn terms_of(t: Listing, bits: &[u64]) -> Terms
    ensures { result ≡ terms_for t bits.now }
{
    if rules::MOST_BITS < bits.len() {
        return no_terms();
    }
    terms_in(t, bits)
}

// Whether the face of a row takes a code of so many bits: between its lowest and its highest.
fn takes_code(width: usize, q: Term, code: u64) -> bool
    ensures { result ≡ takes_code width q code }
{
    let outside = (q.low & !code) | (code & !q.high);
    outside & sets::everyone_of(width) == 0
}

// A code, with what one row gives if it fires at the input vector x and the present code.
fn code_with(inputs: usize, width: usize, x: u64, code: u64, given: u64, q: Term) -> u64
    ensures { result ≡ code_with inputs width x code given q }
{
    if run_inputs::takes_input(inputs, q.input, x) && takes_code(width, q, code) {
        given | q.next
    } else {
        given
    }
}

// The next code that the rows give that fire at the input vector x and the present code.
pub fn code_after(terms: Terms, inputs: usize, width: usize, x: u64, code: u64) -> u64
    ensures { result ≡ code_by inputs width x code 0 (take terms.count terms.table) }
{
    let n = sets::least(terms.count, MOST_TERMS);
    let mut given: u64 = 0;
    for &q in &terms.table[..n] {
        given = code_with(inputs, width, x, code, given, q);
    }
    given
}
