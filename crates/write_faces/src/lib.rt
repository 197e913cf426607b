// A row of the cover: its input, the face of its group, the code of its next state, its outputs.
#![tactic(auto)]

ghost use Rattle.std.specs.Prelude.{◌≡◌};
ghost use Rattle.rules.specs.Cover.{cover};
ghost use Rattle.write_pen.specs.Pen.{Wrote};
ghost use Rattle.write_faces.specs.Faces.{pattern_at, pattern_text, face_text, next_text, row_text};

use rules::{Head, Listing, Pattern, Row};

// Character j of a pattern.
fn pattern_byte(p: Pattern, j: usize) -> u8
    ensures { result ≡ pattern_at p j }
{
    if sets::member(p.dashes as u64, j) {
        b'-'
    } else {
        write_pen::digit_byte(p.ones as u64, j)
    }
}

// The first n characters of a pattern.
pub fn put_pattern(out: &mut [u8], at: usize, p: Pattern, n: usize) -> usize
    ensures { Wrote out.old at (pattern_text p n) result out.new }
{
    let mut to = at;
    for j in 0..n {
        to = write_pen::put_byte(out, to, pattern_byte(p, j));
    }
    to
}

// The face of the group g of n states: 0 or 1 where all the group's codes agree, a dash elsewhere.
fn put_face(out: &mut [u8], at: usize, n: usize, bits: &[u64], g: u64) -> usize
    ensures { Wrote out.old at (face_text n bits.now g) result out.new }
{
    let members = g & sets::everyone_of(n);
    write_pen::put_values(out, at, bits, members, b'-')
}

// The code of the next state, zeros if the row names none: 1 in each bit that has value 1 on the state named.
fn put_next(out: &mut [u8], at: usize, bits: &[u64], next: u64) -> usize
    ensures { Wrote out.old at (next_text bits.now next) result out.new }
{
    write_pen::put_values(out, at, bits, next, b'1')
}

// A row's line: the input, the face, a space, the code of the next state, the outputs, each as the row has it.
pub fn put_row(out: &mut [u8], at: usize, head: Head, bits: &[u64], row: Row) -> usize
    ensures { Wrote out.old at (row_text head bits.now row) result out.new }
{
    let p = put_pattern(out, at, row.input, head.inputs);
    let q = put_face(out, p, head.states, bits, row.group);
    let r = write_pen::put_byte(out, q, b' ');
    let s = put_next(out, r, bits, row.next);
    let t = put_pattern(out, s, row.outputs, head.outputs);
    write_pen::put_byte(out, t, b'\n')
}
