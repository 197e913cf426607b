// The cover, line by line: its counts, a line for each row, and its end. Marks are fixed byte strings.
#![tactic(auto)]

ghost use Rattle.std.specs.Prelude.{◌≡◌, ◌≤◌, length, take};
ghost use Rattle.rules.specs.Limits.{most_bits};
ghost use Rattle.rules.specs.Listing.{all_rows};
ghost use Rattle.rules.specs.Cover.{counted_line, printed_rows, cover_lines};
ghost use Rattle.write_faces.specs.Faces.{row_text};
ghost use Rattle.write_parts.specs.Parts.{added, added_all};
ghost use Rattle.write_cover.specs.Covers.{Bounded, printed_text, row_texts, count_lines, bounded, lines_within};

use rules::{Head, Listing, Row};
use write_parts::Part;

// A mark and its number.
fn add_count(out: &mut [u8], part: Part, mark: &[u8; 3], v: usize) -> Part
    ensures { (result, out.new) ≡ added (counted_line mark.now v) (part, out.old) }
{
    let mut line = [0u8; 24];
    let at = write_pen::put_bytes(&mut line, 0, mark);
    let end = write_pen::put_field(&mut line, at, v as u64, b'\n');
    write_parts::add_line(out, part, &line[..end])
}

// `.i`, `.o`, `.type fd` and `.p`
fn add_counts(out: &mut [u8], part: Part, inputs: usize, outputs: usize, rows: usize) -> Part
    ensures { (result, out.new) ≡ added_all (count_lines inputs outputs rows) (part, out.old) }
{
    let p = add_count(out, part, b".i ", inputs);
    let q = add_count(out, p, b".o ", outputs);
    let s = write_parts::add_line(out, q, b".type fd\n");
    add_count(out, s, b".p ", rows)
}

// The line of one row.
fn add_row(out: &mut [u8], part: Part, head: Head, bits: &[u64], row: Row) -> Part
    requires { Bounded head × (length bits.now ≤ most_bits) }
    ensures { (result, out.new) ≡ added (row_text head bits.now row) (part, out.old) }
{
    let mut line = [0u8; 178];
    let end = write_faces::put_row(&mut line, 0, head, bits, row);
    write_parts::add_line(out, part, &line[..end])
}

// The line of `kept`, which is `row` with the dashes that it keeps, or nothing where the row is left out.
fn add_printed(out: &mut [u8], part: Part, head: Head, bits: &[u64], row: Row, kept: Row) -> Part
    requires { Bounded head × (length bits.now ≤ most_bits) }
    ensures { (result, out.new) ≡ added_all (printed_text head bits.now row kept) (part, out.old) }
{
    if write_rows::is_left_out(head, bits, row) {
        return part;
    }
    add_row(out, part, head, bits, kept)
}

// The lines of all rows of a listing, those that its states add among them, that are not left out.
fn add_rows(out: &mut [u8], part: Part, t: Listing, bits: &[u64]) -> Part
    requires { Bounded t.head × (length bits.now ≤ most_bits) }
    ensures { (result, out.new) ≡ added_all (row_texts t.head bits.now (all_rows t) (printed_rows t.head bits.now (all_rows t))) (part, out.old) }
{
    let mut to = part;
    for k in 0..write_rows::row_count(t.head, t.rows) {
        let row = write_rows::row_of(&t, k);
        let kept = write_rows::kept_row(t, row);
        to = add_printed(out, to, t.head, bits, row, kept);
    }
    to
}

// The whole cover of a listing by these bits.
fn add_lines(out: &mut [u8], part: Part, t: Listing, bits: &[u64]) -> Part
    requires { Bounded t.head × (length bits.now ≤ most_bits) }
    ensures { (result, out.new) ≡ added_all (cover_lines t bits.now) (part, out.old) }
{
    let w = bits.len();
    let printed = write_rows::printed_count(t, bits);
    let rows = add_counts(out, part, t.head.inputs + w, w + t.head.outputs, printed);
    let end = add_rows(out, rows, t, bits);
    write_parts::add_line(out, end, b".e\n")
}

// Whether so many inputs and outputs are within 01's limits.
fn is_bounded(inputs: usize, outputs: usize) -> bool
    ensures { result ≡ bounded inputs outputs }
{
    inputs <= rules::MOST_INPUTS && outputs <= rules::MOST_OUTPUTS
}

// The cover of any listing, with the first `width` bits of a code, added to a part; of a listing with more inputs or outputs than 01 allows, as no reader
// gives, no line.
pub fn add_cover(
    out: &mut [u8],
    part: Part,
    t: Listing,
    width: usize,
    bits: [u64; rules::MOST_BITS],
) -> Part
    ensures { (result, out.new) ≡ added_all (lines_within t (take width bits)) (part, out.old) }
{
    if !is_bounded(t.head.inputs, t.head.outputs) {
        return part;
    }
    let w = sets::least(width, rules::MOST_BITS);
    add_lines(out, part, t, &bits[..w])
}
