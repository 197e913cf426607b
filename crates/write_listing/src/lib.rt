// The text of a listing of rows alone, line by line: its head, a line for each row, and its end. Marks are fixed byte strings.
#![tactic(auto)]

ghost use Rattle.std.specs.Prelude.{◌≡◌};
ghost use Rattle.rules.specs.Listing.{rows_of};
ghost use Rattle.write_pen.specs.Pen.{Wrote};
ghost use Rattle.write_parts.specs.Parts.{added, added_all};
ghost use Rattle.write_listing.specs.Listings.{width_field, set_part, head_line_text, row_line_text, row_lines, Narrow, narrow, lines_within};

use rules::{Head, Listing, Row};
use write_parts::Part;

// The width, 1 behind it where every row is kept, and LF.
fn put_width(out: &mut [u8], at: usize, width: usize, keeps: bool) -> usize
    ensures { Wrote out.old at (width_field width keeps) result out.new }
{
    if keeps {
        let p = write_pen::put_field(out, at, width as u64, b' ');
        write_pen::put_bytes(out, p, b"1\n")
    } else {
        write_pen::put_field(out, at, width as u64, b'\n')
    }
}

// `MC n i o w`
fn put_head(out: &mut [u8], at: usize, head: Head) -> usize
    ensures { Wrote out.old at (head_line_text head) result out.new }
{
    let p = write_pen::put_bytes(out, at, b"MC ");
    let q = write_pen::put_field(out, p, head.states as u64, b' ');
    let r = write_pen::put_field(out, q, head.inputs as u64, b' ');
    let s = write_pen::put_field(out, r, head.outputs as u64, b' ');
    put_width(out, s, head.width, head.keeps)
}

// A set of n states, and the space that ends its field.
fn put_set(out: &mut [u8], at: usize, n: usize, m: u64) -> usize
    ensures { Wrote out.old at (set_part n m) result out.new }
{
    let p = write_pen::put_digits(out, at, m, n);
    write_pen::put_byte(out, p, b' ')
}

// `PT input group next outputs`
fn put_row(out: &mut [u8], at: usize, head: Head, row: Row) -> usize
    ensures { Wrote out.old at (row_line_text head row) result out.new }
{
    let p = write_pen::put_bytes(out, at, b"PT ");
    let q = write_faces::put_pattern(out, p, row.input, head.inputs);
    let r = write_pen::put_byte(out, q, b' ');
    let s = put_set(out, r, head.states, row.group);
    let t = put_set(out, s, head.states, row.next);
    let u = write_faces::put_pattern(out, t, row.outputs, head.outputs);
    write_pen::put_byte(out, u, b'\n')
}

// The line of the head, whatever its numbers.
fn add_head(out: &mut [u8], part: Part, head: Head) -> Part
    ensures { (result, out.new) ≡ added (head_line_text head) (part, out.old) }
{
    let mut line = [0u8; 89];
    let end = put_head(&mut line, 0, head);
    write_parts::add_line(out, part, &line[..end])
}

// The line of one row.
fn add_row(out: &mut [u8], part: Part, head: Head, row: Row) -> Part
    requires { Narrow head }
    ensures { (result, out.new) ≡ added (row_line_text head row) (part, out.old) }
{
    let mut line = [0u8; 183];
    let end = put_row(&mut line, 0, head, row);
    write_parts::add_line(out, part, &line[..end])
}

// The lines of all rows.
fn add_rows(out: &mut [u8], part: Part, t: Listing) -> Part
    requires { Narrow t.head }
    ensures { (result, out.new) ≡ added_all (row_lines t.head (rows_of t)) (part, out.old) }
{
    let n = sets::least(t.rows, rules::MOST_ROWS);
    let mut to = part;
    for &row in &t.table[..n] {
        to = add_row(out, to, t.head, row);
    }
    to
}

// Whether so many states, inputs and outputs are within 01's limits.
fn is_narrow(states: usize, inputs: usize, outputs: usize) -> bool
    ensures { result ≡ narrow states inputs outputs }
{
    states <= rules::MOST_STATES && inputs <= rules::MOST_INPUTS && outputs <= rules::MOST_OUTPUTS
}

// The text of any listing, added to a part; of a listing with more states, inputs or outputs than 01 allows, as no reader gives, no line.
pub fn add_listing(out: &mut [u8], part: Part, t: Listing) -> Part
    ensures { (result, out.new) ≡ added_all (lines_within t) (part, out.old) }
{
    if !is_narrow(t.head.states, t.head.inputs, t.head.outputs) {
        return part;
    }
    let head = add_head(out, part, t.head);
    let rows = add_rows(out, head, t);
    write_parts::add_line(out, rows, b"EN\n")
}
