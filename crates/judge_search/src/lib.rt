// The search for the lowest input at which some rows and others do not say the same. Rows are numbered from 0, those of a listing first and those of a
// cover behind them, and a set of rows is seven words. What the rows say stands in a table of four words for each.
#![tactic(auto)]

mod backing;

ghost use Rattle.std.specs.Prelude.{◌≡◌, ◌+◌, ◌*◌, ◌-◌, ◌^◌, ◌≤◌, ◌<◌, min, length, ℕ, Bool};
ghost use Rattle.rules.specs.Limits.{most_inputs};
ghost use Rattle.sets.specs.Sets.{has};
ghost use Rattle.rules.specs.Check.{lowest_from, fault_from};
ghost use Rattle.judge_search.specs.Rows.{all_row_places, says_words, firing_at, lets, stands, word_from, column_word, columns, present_word, present};
ghost use Rattle.judge_search.specs.Search.{differ, differs, fails_at, said_with, gathered_word, gathered_words, fails_over, kept_words, sure_words, turned_words, same_words, searched};

use rules::{Fault, StateNumber};
use std::array;

// The words of a set of rows; of them the first are those of the listing's rows.
pub const ROW_WORDS: usize = 7;

pub const LISTING_WORDS: usize = 3;

// The rows that there can be: of a listing, and with those of a cover behind them.
pub const LISTING_ROWS: usize = 192;

pub const ALL_ROWS: usize = 448;

// The words of the table of what the rows say, four for each; of the table of where they fire, three for each: the inputs that are 1 and those that are
// dashes, and the states; and of the columns, fourteen for each input.
pub const SAYS_WORDS: usize = 1792;

pub const FIRES_WORDS: usize = 1344;

pub const COLUMN_WORDS: usize = 224;

// The words of the columns of one input: the rows that let a 0 stand there, and behind them those that let a 1.
const INPUT_WORDS: usize = 14;

// What a row says, or some rows together.
// - Of a listing: the states named next, the code of the state named, the outputs that are 1, and those that are dashes.
// - Of a cover: the bits of the next code that are 1, and those that are dashes, and the same of the outputs.
#[derive(Clone, Copy)]
pub struct Said {
    pub a: u64,
    pub b: u64,
    pub c: u64,
    pub d: u64,
}

// Where a row fires: the inputs that are 1 and those that are dashes, and the states.
#[derive(Clone, Copy)]
pub struct Firing {
    pub ones: u64,
    pub dashes: u64,
    pub states: u64,
}

// Whether places are not as they are meant: where one is meant to be 1 it is said to be 1 and no dash; where it is meant to be free, anything; else it is
// said to be neither.
fn is_unlike(on: u64, free: u64, ones: u64, dashes: u64) -> bool
    ensures { result ≡ differ on free ones dashes }
{
    let judged = !free | on;
    ((ones ^ on) | dashes) & judged != 0
}

// Whether a cover's rows say otherwise than a listing's. The next code is judged where a next state is named.
fn are_unlike(listing: Said, cover: Said) -> bool
    ensures { result ≡ differs listing cover }
{
    is_unlike(listing.c, listing.d, cover.c, cover.d)
        || (listing.a != 0 && is_unlike(listing.b, 0, cover.a, cover.b))
}

// What is said with what that row says.
fn said_with(says: &[u64], row: usize, said: Said) -> Said
    requires { row * 4 + 4 ≤ length says.now }
    ensures { result ≡ said_with says.now row said }
{
    let at = row * 4;
    Said {
        a: said.a | says[at],
        b: said.b | says[at + 1],
        c: said.c | says[at + 2],
        d: said.d | says[at + 3],
    }
}

// What is said with what the rows of a set say, of 64 rows from that one on.
fn gather_word(says: &[u64], from: usize, rows: u64, said: Said) -> Said
    requires { (from + 64) * 4 ≤ length says.now }
    ensures { result ≡ gathered_word says.now from 64 rows said }
{
    let mut all = said;
    let mut left = rows;
    while left != 0 {
        let row = from + sets::lowest(left);
        all = said_with(says, row, all);
        left = sets::without_lowest(left);
    }
    all
}

// What is said with what the rows of the words from one on up to another say.
fn gather(says: &[u64], rows: [u64; ROW_WORDS], from: usize, to: usize, said: Said) -> Said
    requires { (to ≤ 7) × (to * 256 ≤ length says.now) }
    ensures { result ≡ gathered_words says.now rows from (to - from) said }
{
    let mut all = said;
    for q in from..to {
        all = gather_word(says, q * 64, rows[q], all);
    }
    all
}

// Whether the rows of a set do not say the same: those of the cover, and those of the listing, each with what is said already.
fn is_failing(says: &[u64], listing: Said, cover: Said, rows: [u64; ROW_WORDS]) -> bool
    requires { says_words ≤ length says.now }
    ensures { result ≡ fails_over listing cover says.now rows }
{
    let meant = gather(says, rows, 0, LISTING_WORDS, listing);
    let given = gather(says, rows, LISTING_WORDS, ROW_WORDS, cover);
    are_unlike(meant, given)
}

// Of a set of rows those that are in the words from that place on too.
fn keep(rows: [u64; ROW_WORDS], words: &[u64], at: usize) -> [u64; ROW_WORDS]
    requires { at + 7 ≤ length words.now }
    ensures { result ≡ kept_words rows words.now at }
{
    array::from_fn(|q| rows[q] & words[at + q])
}

// Of a set of rows those that let both digits stand at each of so many inputs: they fire whatever the input is.
fn sure_of(rows: [u64; ROW_WORDS], cols: &[u64], inputs: usize) -> [u64; ROW_WORDS]
    requires { inputs * 14 ≤ length cols.now }
    ensures { result ≡ sure_words rows cols.now 0 inputs }
{
    let mut sure = rows;
    for j in 0..inputs {
        let low = keep(sure, cols, j * INPUT_WORDS);
        sure = keep(low, cols, j * INPUT_WORDS + ROW_WORDS);
    }
    sure
}

// A set of rows with those of another turned over: where all of them are in the set, the set without them.
fn turn(rows: [u64; ROW_WORDS], others: [u64; ROW_WORDS]) -> [u64; ROW_WORDS]
    ensures { result ≡ turned_words rows others }
{
    array::from_fn(|q| rows[q] ^ others[q])
}

// Of the inputs that begin as v says, the lowest at which the rows of the set that fire there do not say the same, with what the listing and the cover say
// already. For each input more there are fourteen words, from that place on: the rows that let a 0 stand there, and those that let a 1. Where both leave the
// same rows, the second half is like the first.
fn search(
    says: &[u64],
    cols: &[u64],
    listing: Said,
    cover: Said,
    at: usize,
    left: usize,
    v: usize,
    rows: [u64; ROW_WORDS],
) -> Option<usize>
    requires { (says_words ≤ length says.now) × (at + left * 14 ≤ length cols.now) × ((v + 1) * 2 ^ left ≤ 65536) }
    ensures { result ≡ searched listing cover says.now cols.now at left v rows }
{
    if left == 0 {
        return is_failing(says, listing, cover, rows).then_some(v);
    }
    let low = keep(rows, cols, at);
    let first = search(
        says,
        cols,
        listing,
        cover,
        at + INPUT_WORDS,
        left - 1,
        v * 2,
        low,
    );
    if first.is_some() {
        return first;
    }
    let high = keep(rows, cols, at + ROW_WORDS);
    if low == high {
        return None;
    }
    search(
        says,
        cols,
        listing,
        cover,
        at + INPUT_WORDS,
        left - 1,
        v * 2 + 1,
        high,
    )
}

// The lowest input at which the rows that fire in the state s do not say the same. What those say that fire whatever the input is, is gathered once.
fn search_state(
    fires: &[u64; FIRES_WORDS],
    says: &[u64],
    cols: &[u64],
    s: usize,
    inputs: usize,
) -> Option<usize>
    requires { (says_words ≤ length says.now) × (cols.now ≡ columns fires.now) × (inputs ≤ most_inputs) }
    ensures { result ≡ lowest_from (fails_at fires.now says.now inputs s) 0 (2 ^ inputs) }
{
    let rows = present_in(fires, s);
    let sure = sure_of(rows, cols, inputs);
    let nothing = Said {
        a: 0,
        b: 0,
        c: 0,
        d: 0,
    };
    let listing = gather(says, sure, 0, LISTING_WORDS, nothing);
    let cover = gather(says, sure, LISTING_WORDS, ROW_WORDS, nothing);
    search(says, cols, listing, cover, 0, inputs, 0, turn(rows, sure))
}

// Digit j of a mask.
pub fn digit_at(m: u64, j: usize) -> u64
    ensures { result ≡ has m j }
{
    u64::from(sets::member(m, j))
}

// Where that row of the table fires.
fn firing_at(fires: &[u64; FIRES_WORDS], row: usize) -> Firing
    requires { row < all_row_places }
    ensures { result ≡ firing_at fires.now row }
{
    let at = row * 3;
    Firing {
        ones: fires[at],
        dashes: fires[at + 1],
        states: fires[at + 2],
    }
}

// Whether a row lets the digit d stand at the input j.
fn lets(fires: &[u64; FIRES_WORDS], row: usize, j: usize, d: u64) -> bool
    requires { row < all_row_places }
    ensures { result ≡ lets fires.now j d row }
{
    let at = firing_at(fires, row);
    sets::member(at.dashes, j) || digit_at(at.ones, j) == d
}

// Whether a row fires in the state s.
fn stands(fires: &[u64; FIRES_WORDS], row: usize, s: usize) -> bool
    requires { row < all_row_places }
    ensures { result ≡ stands fires.now s row }
{
    sets::member(firing_at(fires, row).states, s)
}

// Of 64 rows from that one on those that pass a test, as a word with the first of them at the lowest digit.
fn word_of<F: Fn(usize) -> bool + Drop>(from: usize, test: F) -> u64
    requires room { from + 64 ≤ all_row_places }
    requires callable { (k : ℕ) → k < from + 64 → F.pre test k }
    ensures { (p : ℕ → Bool) → ((k : ℕ) (b : Bool) → F.post test k b → b ≡ p k) → result ≡ word_from p from 64 }
{
    let mut word: u64 = 0;
    for k in (0..64).rev() {
        word = word * 2 + u64::from(test(from + k));
    }
    word
}

// A word of the columns: of 64 rows those that let a digit stand at an input.
fn column_word(fires: &[u64; FIRES_WORDS], w: usize) -> u64
    ensures { result ≡ column_word fires.now w }
{
    let j = w / INPUT_WORDS;
    let d = (w % INPUT_WORDS / ROW_WORDS) as u64;
    word_of(w % ROW_WORDS * 64, |row| lets(fires, row, j, d))
}

// All columns.
fn columns_of(fires: &[u64; FIRES_WORDS]) -> [u64; COLUMN_WORDS]
    ensures { result ≡ columns fires.now }
{
    let mut cols = [0u64; COLUMN_WORDS];
    for (w, word) in cols.iter_mut().enumerate() {
        *word = column_word(fires, w);
    }
    cols
}

// Of 64 rows those that fire in the state s.
fn present_word(fires: &[u64; FIRES_WORDS], s: usize, q: usize) -> u64
    requires { q < 7 }
    ensures { result ≡ present_word fires.now s q }
{
    word_of(q * 64, |row| stands(fires, row, s))
}

// The rows that fire in the state s.
fn present_in(fires: &[u64; FIRES_WORDS], s: usize) -> [u64; ROW_WORDS]
    ensures { result ≡ present fires.now s }
{
    array::from_fn(|q| present_word(fires, s, q))
}

// The lowest of so many states, and for it the lowest input, at which the rows that fire do not say the same, by a search in each state.
fn search_states(
    fires: &[u64; FIRES_WORDS],
    says: &[u64; SAYS_WORDS],
    states: usize,
    inputs: usize,
) -> Option<Fault>
    ensures { result ≡ fault_from (fails_at fires.now says.now (min inputs most_inputs)) (min inputs most_inputs) 0 states }
{
    let n = sets::least(inputs, rules::MOST_INPUTS);
    let cols = columns_of(fires);
    for s in 0..states {
        if let Some(input) = search_state(fires, says, &cols, s, n) {
            return Some(Fault {
                state: StateNumber(s),
                input,
            });
        }
    }
    None
}

// The lowest of so many states, and for it the lowest input, the leftmost its highest digit, at which the rows that fire do not say the same; of more
// inputs than there can be, the first. Where the rows are alike one by one there is none.
pub fn find_fault(
    fires: &[u64; FIRES_WORDS],
    says: &[u64; SAYS_WORDS],
    states: usize,
    inputs: usize,
) -> Option<Fault>
    ensures { result ≡ fault_from (fails_at fires.now says.now (min inputs most_inputs)) (min inputs most_inputs) 0 states }
{
    let n = sets::least(inputs, rules::MOST_INPUTS);
    if backing::is_row_by_row(fires, says, n) {
        return None;
    }
    search_states(fires, says, states, inputs)
}
