// The line of a step of a replay, added to a part: `ST state code outputs`. Its mark is a fixed byte string.
#![tactic(auto)]

ghost use Rattle.std.specs.Prelude.{◌≡◌, ◌≤◌};
ghost use Rattle.rules.specs.Limits.{most_bits, most_outputs};
ghost use Rattle.rules.specs.Report.{code_text};
ghost use Rattle.rules.specs.Cover.{vector};
ghost use Rattle.write_pen.specs.Pen.{Wrote};
ghost use Rattle.write_parts.specs.Parts.{added, added_all};
ghost use Rattle.run_print.specs.Lines.{step_text, step_within};

use rules::Pattern;
use write_parts::Part;

// A code of so many bits; a code of no bits is one dash.
fn put_code(out: &mut [u8], at: usize, width: usize, code: u64) -> usize
    ensures { Wrote out.old at (code_text (vector width code)) result out.new }
{
    if width == 0 {
        write_pen::put_byte(out, at, b'-')
    } else {
        write_pen::put_digits(out, at, code, width)
    }
}

// `ST state code outputs`, of a code of so many bits and so many outputs.
fn put_step(
    out: &mut [u8],
    at: usize,
    state: usize,
    width: usize,
    code: u64,
    outputs: Pattern,
    n: usize,
) -> usize
    ensures { Wrote out.old at (step_text state width code outputs n) result out.new }
{
    let p = write_pen::put_bytes(out, at, b"ST ");
    let q = write_pen::put_field(out, p, state as u64, b' ');
    let r = put_code(out, q, width, code);
    let s = write_pen::put_byte(out, r, b' ');
    let t = write_faces::put_pattern(out, s, outputs, n);
    write_pen::put_byte(out, t, b'\n')
}

// The line of one step, of no more bits and outputs than there can be.
fn add_shown(
    out: &mut [u8],
    part: Part,
    state: usize,
    width: usize,
    code: u64,
    outputs: Pattern,
    n: usize,
) -> Part
    requires { (width ≤ most_bits) × (n ≤ most_outputs) }
    ensures { (result, out.new) ≡ added (step_text state width code outputs n) (part, out.old) }
{
    let mut line = [0u8; 122];
    let end = put_step(&mut line, 0, state, width, code, outputs, n);
    write_parts::add_line(out, part, &line[..end])
}

// The line of one step; none of more bits or outputs than there can be.
pub fn add_step(
    out: &mut [u8],
    part: Part,
    state: usize,
    width: usize,
    code: u64,
    outputs: Pattern,
    n: usize,
) -> Part
    ensures { (result, out.new) ≡ added_all (step_within state width code outputs n) (part, out.old) }
{
    if rules::MOST_BITS < width || rules::MOST_OUTPUTS < n {
        return part;
    }
    add_shown(out, part, state, width, code, outputs, n)
}
