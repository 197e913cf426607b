// What each width buys, line by line, from one code: a line for each width from 1 to that of the code, and the end.
#![tactic(auto)]

ghost use Rattle.std.specs.Prelude.{◌≡◌, ◌≤◌, length, take};
ghost use Rattle.rules.specs.Code.{unmet_from};
ghost use Rattle.rules.specs.Widths.{width_line};
ghost use Rattle.families.specs.Families.{requirements_in};
ghost use Rattle.write_pen.specs.Pen.{Wrote};
ghost use Rattle.write_parts.specs.Parts.{added, added_all};
ghost use Rattle.write_report.specs.Report.{most_words};
ghost use Rattle.write_widths.specs.Widths.{line_of, lines_to, encoded_lines};

use code_walking::Requirements;
use rules::Encoding;
use write_parts::Part;

// How many of the families' requirements no bit meets.
fn count_unmet(bits: &[u64], fs: &[u64]) -> usize
    requires { length fs.now ≤ most_words }
    ensures { result ≡ length (unmet_from 0 64 bits.now (requirements_in fs.now)) }
{
    Requirements::new(fs)
        .filter(|r| code_judging::is_unmet(bits, *r))
        .count()
}

// `WD width unmet covered`
fn put_width_line(out: &mut [u8], at: usize, width: usize, unmet: usize, covered: bool) -> usize
    ensures { Wrote out.old at (width_line width unmet covered) result out.new }
{
    let p = write_pen::put_bytes(out, at, b"WD ");
    let q = write_pen::put_field(out, p, width as u64, b' ');
    let r = write_pen::put_field(out, q, unmet as u64, b' ');
    write_pen::put_field(out, r, u64::from(covered), b'\n')
}

// The same, added to a part.
fn add_width_line(out: &mut [u8], part: Part, width: usize, unmet: usize, covered: bool) -> Part
    ensures { (result, out.new) ≡ added (width_line width unmet covered) (part, out.old) }
{
    let mut line = [0u8; 47];
    let end = put_width_line(&mut line, 0, width, unmet, covered);
    write_parts::add_line(out, part, &line[..end])
}

// The line of one width: that many of the bits. The pairs and the groups are in the first words of the families.
fn add_width(
    out: &mut [u8],
    part: Part,
    bits: &[u64],
    fs: &[u64],
    first: usize,
    width: usize,
) -> Part
    requires { (length fs.now ≤ most_words) × (first ≤ length fs.now) × (width ≤ length bits.now) }
    ensures { (result, out.new) ≡ added (line_of fs.now (take first fs.now) bits.now width) (part, out.old) }
{
    let unmet = count_unmet(&bits[..width], fs);
    let open = code_judging::is_unmet_in(&bits[..width], &fs[..first]);
    add_width_line(out, part, width, unmet, !open)
}

// A line for each width up to that of the bits.
fn add_lines(out: &mut [u8], part: Part, bits: &[u64], fs: &[u64], first: usize) -> Part
    requires { (length fs.now ≤ most_words) × (first ≤ length fs.now) }
    ensures { (result, out.new) ≡ added_all (lines_to fs.now (take first fs.now) bits.now (length bits.now)) (part, out.old) }
{
    let mut to = part;
    for width in 0..bits.len() {
        to = add_width(out, to, bits, fs, first, width + 1);
    }
    to
}

// The whole, added to a part. Of more families than a listing can have the first count.
pub fn add_widths(out: &mut [u8], part: Part, e: Encoding, fs: &[u64], first: usize) -> Part
    ensures { (result, out.new) ≡ added_all (encoded_lines fs.now first e) (part, out.old) }
{
    let width = sets::least(e.width, rules::MOST_BITS);
    let end = sets::least(fs.len(), code_drawing::ALL_WORDS);
    let front = sets::least(first, end);
    let bits = e.bits;
    let to = add_lines(out, part, &bits[..width], &fs[..end], front);
    write_parts::add_line(out, to, b"EN\n")
}
