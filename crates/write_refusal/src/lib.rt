// `NO number line`, the line of a refusal, in a buffer or added to a part.
#![tactic(auto)]

ghost use Rattle.std.specs.Prelude.{◌≡◌};
ghost use Rattle.rules.specs.Answers.{refuses, printed};
ghost use Rattle.write_pen.specs.Pen.{Wrote};
ghost use Rattle.write_parts.specs.Parts.{added};

use rules::Refusal;
use write_parts::Part;

// `NO number line`
pub fn put_refusal(out: &mut [u8], refusal: Refusal, line: usize) -> usize
    ensures { Wrote out.old 0 (printed (refuses refusal line)) result out.new }
{
    let p = write_pen::put_bytes(out, 0, b"NO ");
    let q = write_pen::put_field(out, p, refusal.number_of() as u64, b' ');
    write_pen::put_field(out, q, line as u64, b'\n')
}

// The same, added to a part.
pub fn add_refusal(out: &mut [u8], part: Part, refusal: Refusal, at: usize) -> Part
    ensures { (result, out.new) ≡ added (printed (refuses refusal at)) (part, out.old) }
{
    let mut line = [0u8; 27];
    let end = put_refusal(&mut line, refusal, at);
    write_parts::add_line(out, part, &line[..end])
}
