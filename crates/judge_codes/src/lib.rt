// The reader of codes: a line `SC state code` for each state, in order.
#![tactic(auto)]

ghost use Rattle.std.specs.Prelude.{◌≡◌, ◌≤◌, min, take};
ghost use Rattle.rules.specs.Limits.{most_states};
ghost use Rattle.rules.specs.Text.{dash, same, lines_of};
ghost use Rattle.rules.specs.CheckTexts.{width_in, is_number, codes_reading, bit_in};
ghost use Rattle.judge_codes.specs.Lines.{just_dash, code_field, code_said, all_bits};

use read_pieces::{cut, field};
use rules::{CodeTable, Refusal, Refused};
use std::array;

// Whether a field is one dash.
fn is_dash(f: &[u8]) -> bool
    ensures { result ≡ just_dash f.now }
{
    f == b"-".as_slice()
}

// How many bits the code of a line has.
fn width_in(l: &[u8]) -> usize
    ensures { result ≡ width_in l.now }
{
    let f = field(l, 2);
    if is_dash(f) {
        return 0;
    }
    f.len()
}

// What a field says as a code of w bits, bit k its digit k; none of a bad field.
fn code_in(w: usize, f: &[u8]) -> Option<u64>
    ensures { result ≡ code_field w f.now }
{
    if w == 0 {
        return is_dash(f).then_some(0);
    }
    let code = read_fields::places_in(f, rules::MOST_BITS, w, b'0', b'1', b'1')?;
    Some(code.second)
}

// Whether a field is the number s.
fn is_number(s: usize, f: &[u8]) -> bool
    ensures { result ≡ is_number s f.now }
{
    read_fields::numeral_of(f) == Some(s)
}

// The code that the line of the state s says, of codes of w bits; none of a bad line.
fn code_line(w: usize, s: usize, l: &[u8]) -> Option<u64>
    ensures { result ≡ code_said w s l.now }
{
    if read_pieces::field_count(l) != 3 {
        return None;
    }
    if !read_marks::leads(l, b"SC") {
        return None;
    }
    if !is_number(s, field(l, 1)) {
        return None;
    }
    code_in(w, field(l, 2))
}

// The codes of so many states, no more than there can be.
pub fn read_codes(states: usize, text: &[u8]) -> Result<CodeTable, Refused>
    ensures { result ≡ codes_reading (min states most_states) (lines_of text.now) }
{
    let n = sets::least(states, rules::MOST_STATES);
    let first = cut(text, 0, b'\n');
    let width = width_in(&text[0..first]);
    let mut table = [0u64; rules::MOST_STATES];
    let mut at: usize = 0;
    for s in 0..n {
        let end = cut(text, at, b'\n');
        if text.len() <= end {
            return Err(Refusal::BadLine.at(s + 1));
        }
        let Some(code) = code_line(width, s, &text[at..end]) else {
            return Err(Refusal::BadLine.at(s + 1));
        };
        table[s] = code;
        at = end + 1;
    }
    if at < text.len() {
        return Err(Refusal::BadLine.at(n + 1));
    }
    Ok(CodeTable { width, table })
}

// Bit k of the codes of so many states, the first of them at digit 0.
fn bit_in(table: [u64; rules::MOST_STATES], states: usize, k: usize) -> u64
    requires { states ≤ most_states }
    ensures { result ≡ bit_in k (take states table) }
{
    let mut bit: u64 = 0;
    for s in (0..states).rev() {
        bit = bit * 2 + judge_search::digit_at(table[s], k);
    }
    bit
}

// All bits that the codes of so many states can have; past their width each is empty where the codes have no digit there.
pub fn bits_of(table: [u64; rules::MOST_STATES], states: usize) -> [u64; rules::MOST_BITS]
    ensures { result ≡ all_bits (take (min states most_states) table) }
{
    let n = sets::least(states, rules::MOST_STATES);
    array::from_fn(|k| bit_in(table, n, k))
}
