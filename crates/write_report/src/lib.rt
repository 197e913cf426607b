// The report, line by line: its counts, a line for each state, one for each requirement that is met, one for each that is not, and its end.
#![tactic(auto)]

mod entries;

ghost use Rattle.std.specs.Prelude.{◌≡◌, not, ◌≤◌, length};
ghost use Rattle.rules.specs.Limits.{most_bits};
ghost use Rattle.rules.specs.Text.{digit};
ghost use Rattle.rules.specs.Requirements.{is_by};
ghost use Rattle.rules.specs.Report.{count_line, state_line};
ghost use Rattle.families.specs.Families.{requirements_in};
ghost use Rattle.write_pen.specs.Pen.{Wrote};
ghost use Rattle.write_parts.specs.Parts.{added, added_all};
ghost use Rattle.write_report.specs.declared.Listed.{Listed};
ghost use Rattle.write_report.specs.Report.{state_lines, line_for, lines_of, most_words, encoded_lines};

use code_walking::Requirements;
use entries::Counts;
use rules::{BitNumber, Encoding, RequirementNumber, StateNumber};
use write_parts::Part;

// No line of a requirement has more bytes.
const LISTED: usize = 45;

// Which requirements have their line: those that a bit meets, with its number, or those that none does.
#[derive(Clone, Copy)]
pub enum Listed {
    Met,
    Unmet,
}

// How a walk over the requirements left a part, and how many it came upon that no bit meets.
#[derive(Clone, Copy)]
struct Walked {
    part: Part,
    unmet: usize,
}

// The line of the counts.
fn add_counts(out: &mut [u8], part: Part, c: Counts) -> Part
    ensures { (result, out.new) ≡ added (count_line c.bits c.asked c.unmet c.passes c.looks) (part, out.old) }
{
    let mut line = [0u8; 108];
    let end = entries::put_count_line(&mut line, 0, c);
    write_parts::add_line(out, part, &line[..end])
}

// The line of one state.
fn add_state(out: &mut [u8], part: Part, bits: &[u64], s: StateNumber) -> Part
    requires { length bits.now ≤ most_bits }
    ensures { (result, out.new) ≡ added (state_line bits.now s) (part, out.old) }
{
    let mut line = [0u8; 89];
    let end = entries::put_state_line(&mut line, 0, bits, s);
    write_parts::add_line(out, part, &line[..end])
}

// A line for each of the first n states.
fn add_states(out: &mut [u8], part: Part, bits: &[u64], n: usize) -> Part
    requires { length bits.now ≤ most_bits }
    ensures { (result, out.new) ≡ added_all (state_lines bits.now n) (part, out.old) }
{
    let mut to = part;
    for i in 0..n {
        to = add_state(out, to, bits, StateNumber(i));
    }
    to
}

// The line that a requirement has, by its judgement, in the list of those that are met, or of those that are not.
fn put_judged(
    out: &mut [u8],
    at: usize,
    judged: Option<BitNumber>,
    number: RequirementNumber,
    listed: Listed,
) -> usize
    ensures { Wrote out.old at (line_for listed number.0 judged) result out.new }
{
    match (listed, judged) {
        (Listed::Met, Some(bit)) => entries::put_met_line(out, at, number, bit),
        (Listed::Unmet, None) => entries::put_unmet_line(out, at, number),
        _ => at,
    }
}

// The line of one requirement, or none. Where the longest fits, it is written straight into the part: that spares a buffer of its own and a copy.
fn add_judged(
    out: &mut [u8],
    part: Part,
    judged: Option<BitNumber>,
    number: RequirementNumber,
    listed: Listed,
) -> Part
    requires { length (line_for listed number.0 judged) ≤ 45 }
    ensures { (result, out.new) ≡ added (line_for listed number.0 judged) (part, out.old) }
{
    if write_parts::is_open(part, out.len(), LISTED) {
        let given = part.given;
        let end = put_judged(out, given, judged, number, listed);
        return Part {
            skip: 0,
            given: end,
            full: false,
        };
    }
    let mut line = [0u8; LISTED];
    let end = put_judged(&mut line, 0, judged, number, listed);
    write_parts::add_line(out, part, &line[..end])
}

// 1 for a requirement that no bit meets, else 0.
pub fn missed(judged: Option<BitNumber>) -> usize
    ensures { result ≡ digit (not (is_by judged)) }
{
    usize::from(judged.is_none())
}

// The lines of the requirements that are met, or of those that are not, numbered from 0, until one does not fit. Where it comes upon none that is not
// met, those that are not have no line to add to what there then is.
fn add_listed(out: &mut [u8], part: Part, bits: &[u64], fs: &[u64], listed: Listed) -> Walked
    requires { length fs.now ≤ most_words }
    ensures { ((result.part, out.new) ≡ added_all (lines_of listed 0 bits.now (requirements_in fs.now)) (part, out.old))
        × (result.unmet ≡ 0 → added_all (lines_of Listed.Unmet 0 bits.now (requirements_in fs.now)) (result.part, out.new) ≡ (result.part, out.new)) }
{
    let mut unmet: usize = 0;
    let mut to = part;
    for (k, asked) in Requirements::new(fs).enumerate() {
        if to.full {
            return Walked { part: to, unmet };
        }
        let judged = code_judging::judge(bits, asked);
        to = add_judged(out, to, judged, RequirementNumber(k), listed);
        unmet += missed(judged);
    }
    Walked { part: to, unmet }
}

// The lines of the requirements that are not met, behind those that are: a second walk, which is left out where the first came upon none.
fn add_unmet(out: &mut [u8], met: Walked, bits: &[u64], fs: &[u64]) -> Part
    requires { (length fs.now ≤ most_words)
        × (met.unmet ≡ 0 → added_all (lines_of Listed.Unmet 0 bits.now (requirements_in fs.now)) (met.part, out.old) ≡ (met.part, out.old)) }
    ensures { (result, out.new) ≡ added_all (lines_of Listed.Unmet 0 bits.now (requirements_in fs.now)) (met.part, out.old) }
{
    if met.unmet == 0 {
        return met.part;
    }
    let all = add_listed(out, met.part, bits, fs, Listed::Unmet);
    all.part
}

// The report on n states and on the families of a listing, added to a part. Of more families than a listing can have the first count.
pub fn add_report(out: &mut [u8], part: Part, n: usize, e: Encoding, fs: &[u64]) -> Part
    ensures { (result, out.new) ≡ added_all (encoded_lines n fs.now e) (part, out.old) }
{
    let width = sets::least(e.width, rules::MOST_BITS);
    let end = sets::least(fs.len(), code_drawing::ALL_WORDS);
    let bits = e.bits;
    let counts = Counts {
        bits: e.width,
        asked: e.asked,
        unmet: e.unmet,
        passes: e.passes,
        looks: e.looks,
    };
    let p = add_counts(out, part, counts);
    let q = add_states(out, p, &bits[..width], n);
    let r = add_listed(out, q, &bits[..width], &fs[..end], Listed::Met);
    let s = add_unmet(out, r, &bits[..width], &fs[..end]);
    write_parts::add_line(out, s, b"EN\n")
}
