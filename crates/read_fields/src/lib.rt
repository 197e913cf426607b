// Readers of one field: its characters, the set it stands for, its number. Each takes the field's bytes, whatever they are.
#![tactic(auto)]

ghost use Rattle.std.specs.Prelude.{◌≡◌, ◌&&◌, ◌||◌, leb, eqb};
ghost use Rattle.rules.specs.Text.{nought, nine, digit, numeral_of};
ghost use Rattle.read_fields.specs.Fields.{number_shaped, places_of, places_in, pattern_in, ones_in};

use rules::Pattern;

// In a field of three kinds of characters, the places of the second kind and those of the third.
#[derive(Clone, Copy)]
pub struct Places {
    pub second: u64,
    pub third: u64,
}

// Whether a character is one of three.
fn one_of(x: u8, a: u8, b: u8, c: u8) -> bool
    ensures { result ≡ (eqb x a || (eqb x b || eqb x c)) }
{
    x == a || x == b || x == c
}

// 1 for two equal characters, and 0 for others.
pub fn digit_of(x: u8, c: u8) -> u64
    ensures { result ≡ digit (eqb x c) }
{
    u64::from(x == c)
}

// The places of b and those of c in a field of at most 64 characters, each of them a, b or c.
fn places_of(f: &[u8], a: u8, b: u8, c: u8) -> Option<Places>
    ensures { result ≡ places_of a b c f.now }
{
    if 64 < f.len() {
        return None;
    }
    let mut m: u64 = 0;
    let mut n: u64 = 0;
    for i in (0..f.len()).rev() {
        let x = f[i];
        if !one_of(x, a, b, c) {
            return None;
        }
        m = m * 2 + digit_of(x, b);
        n = n * 2 + digit_of(x, c);
    }
    Some(Places {
        second: m,
        third: n,
    })
}

// The places of b and those of c in a field of k characters, at most `most`, each of them a, b or c.
#[tactic(auto, unfolding(crate::specs::Fields::places_in))]
pub fn places_in(f: &[u8], most: usize, k: usize, a: u8, b: u8, c: u8) -> Option<Places>
    ensures { result ≡ places_in most k a b c f.now }
{
    if f.len() <= most && f.len() == k {
        places_of(f, a, b, c)
    } else {
        None
    }
}

// What a field of k characters `0 1 -` says, at most `most` and at most 32.
pub fn pattern_in(f: &[u8], most: usize, k: usize) -> Option<Pattern>
    ensures { result ≡ pattern_in most k f.now }
{
    if 32 < f.len() {
        return None;
    }
    let Some(places) = places_in(f, most, k, b'0', b'1', b'-') else {
        return None;
    };
    Some(Pattern {
        ones: places.second as u32,
        dashes: places.third as u32,
    })
}

// The ones of a field of k characters `0 1`, at most `most` and at most 64.
#[tactic(auto, using(crate::proofs::Sets::ones), unfolding(crate::specs::Fields::ones_in))]
pub fn ones_in(f: &[u8], most: usize, k: usize) -> Option<u64>
    ensures { result ≡ ones_in most k f.now }
{
    let places = places_in(f, most, k, b'0', b'1', b'1')?;
    Some(places.second)
}

// Whether a field has a number's length and no needless leading zero.
#[tactic(auto, unfolding(crate::specs::Fields::number_shaped))]
fn number_shaped(f: &[u8]) -> bool
    ensures { result ≡ number_shaped f.now }
{
    1 <= f.len() && f.len() <= 4 && (f.len() == 1 || f[0] != b'0')
}

fn is_digit(x: u8) -> bool
    ensures { result ≡ (leb nought x && leb x nine) }
{
    b'0' <= x && x <= b'9'
}

// What a field says as a number.
pub fn numeral_of(f: &[u8]) -> Option<usize>
    ensures { result ≡ numeral_of f.now }
{
    if !number_shaped(f) {
        return None;
    }
    let mut v: usize = 0;
    for &x in f {
        if !is_digit(x) {
            return None;
        }
        v = v * 10 + (x - b'0') as usize;
    }
    Some(v)
}
