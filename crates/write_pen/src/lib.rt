// Writers: each writes a text into a lent buffer from `at` on, and answers the place behind it. What falls behind the buffer's end is lost,
// so a run on a small buffer tells the length. A place past the last that a number can say is the last one. The buffer and the place are handed on by
// themselves, since `Wrote`, which every writer promises, speaks of the two.
#![tactic(auto)]

ghost use Rattle.std.specs.Prelude.{◌≡◌, [], ◌∷◌, ◌++◌, ◌+◌};
ghost use Rattle.sets.specs.Sets.{has};
ghost use Rattle.rules.specs.Text.{nought, decimal};
ghost use Rattle.write_pen.specs.Pen.{Wrote, digits_text, value_at, values_text};

pub fn put_byte(out: &mut [u8], at: usize, b: u8) -> usize
    ensures { Wrote out.old at (b ∷ []) result out.new }
{
    if at < out.len() {
        out[at] = b;
    }
    at.saturating_add(1)
}

pub fn put_bytes(out: &mut [u8], at: usize, s: &[u8]) -> usize
    ensures { Wrote out.old at s.now result out.new }
{
    // A byte at a time: most texts are a mark of three bytes, for which a copy in one piece would be a call.
    let mut to = at;
    for &b in s {
        to = put_byte(out, to, b);
    }
    to
}

// A number in decimal: the digits before the last, and the last.
fn put_number(out: &mut [u8], at: usize, v: u64) -> usize
    ensures { Wrote out.old at (decimal v) result out.new }
{
    if v < 10 {
        return put_byte(out, at, b'0' + v as u8);
    }
    let to = put_number(out, at, v / 10);
    put_byte(out, to, b'0' + (v % 10) as u8)
}

// A number, and the byte that ends its field.
pub fn put_field(out: &mut [u8], at: usize, v: u64, end: u8) -> usize
    ensures { Wrote out.old at (decimal v ++ (end ∷ [])) result out.new }
{
    let to = put_number(out, at, v);
    put_byte(out, to, end)
}

// Digit s of m as a character; a digit past the mask's width is 0.
pub fn digit_byte(m: u64, s: usize) -> u8
    ensures { result ≡ nought + has m s }
{
    if sets::member(m, s) { b'1' } else { b'0' }
}

// The lowest n digits of m as characters, the lowest first.
pub fn put_digits(out: &mut [u8], at: usize, m: u64, n: usize) -> usize
    ensures { Wrote out.old at (digits_text m n) result out.new }
{
    let mut to = at;
    for i in 0..n {
        to = put_byte(out, to, digit_byte(m, i));
    }
    to
}

// A set's value in the bit b: 0 or 1 where its members all have that value, `mixed` where they differ, and 0 where it has none.
fn value_byte(g: u64, b: u64, mixed: u8) -> u8
    ensures { result ≡ value_at g mixed b }
{
    if b & g == 0 {
        b'0'
    } else if b & g == g {
        b'1'
    } else {
        mixed
    }
}

// A set's value in each bit.
pub fn put_values(out: &mut [u8], at: usize, bits: &[u64], g: u64, mixed: u8) -> usize
    ensures { Wrote out.old at (values_text bits.now g mixed) result out.new }
{
    let mut to = at;
    for &b in bits {
        to = put_byte(out, to, value_byte(g, b, mixed));
    }
    to
}
