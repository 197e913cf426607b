// A recorded run, replayed line by line, whole or a piece at a time: the symbolic machine and the encoded one are stepped side by side, each on its own,
// and the lines that they give are added to a part.
#![tactic(auto)]

ghost use Rattle.std.specs.Prelude.{◌≡◌, length};
ghost use Rattle.rules.specs.Text.{lines_of};
ghost use Rattle.run_replay.specs.Moves.{machines_of, moved_by};
ghost use Rattle.run_replay.specs.Places.{ends_at, ran_from, ran_first, ran_by, course_of, ran_on};

use read_pieces::cut;
use rules::{Listing, Pattern, Refusal};
use run_encoded::Terms;
use write_parts::Part;

// Both machines: the listing, the first `width` bits of a code, and the rows that the cover prints by them.
#[derive(Clone, Copy)]
pub struct Machines {
    pub listing: Listing,
    pub width: usize,
    pub bits: [u64; rules::MOST_BITS],
    pub terms: Terms,
}

// Both machines as the functions below borrow them, with no more bits than there can be.
#[derive(Clone, Copy)]
struct Both<'a> {
    listing: &'a Listing,
    terms: &'a Terms,
    bits: &'a [u64],
}

// A place in a run: before its first line; behind `SS` and so many steps, at a state and a code; or behind its end.
#[derive(Clone, Copy)]
pub enum Place {
    First,
    Behind { done: u32, state: usize, code: u64 },
    Over,
}

// A part to which the lines of a piece are added, and the place that the run has come to.
#[derive(Clone, Copy)]
pub struct Ran {
    pub part: Part,
    pub place: Place,
}

// What a step gives: of the symbolic machine the next state, as a set of one or of none and by its number, and the outputs; of the encoded one the next
// code.
#[derive(Clone, Copy)]
struct Moved {
    next: u64,
    state: usize,
    outputs: Pattern,
    code: u64,
}

// Both machines of any listing with the first `width` bits of a code. The rows are made once, and serve every piece of a run.
pub fn machines_of(t: Listing, width: usize, bits: [u64; rules::MOST_BITS]) -> Machines
    ensures { result ≡ machines_of t width bits }
{
    let w = sets::least(width, rules::MOST_BITS);
    let terms = run_encoded::terms_of(t, &bits[..w]);
    Machines {
        listing: t,
        width,
        bits,
        terms,
    }
}

// A step of both machines, from the state s and from a code.
fn step_both(m: Both, x: u64, s: usize, code: u64) -> Moved
    ensures { result ≡ moved_by m.entry.listing.now m.entry.terms.now (length m.entry.bits.now) x s code }
{
    let told = run_symbolic::told_at(*m.listing, x, s);
    let next = told.next;
    let state = sets::lowest(next);
    let outputs = run_symbolic::outputs_told(told);
    let inputs = m.listing.head.inputs;
    let after = run_encoded::code_after(*m.terms, inputs, m.bits.len(), x, code);
    Moved {
        next,
        state,
        outputs,
        code: after,
    }
}

// A refusal ends the run.
fn add_end(out: &mut [u8], part: Part, refusal: Refusal, line: usize) -> Ran
    ensures { (result, out.new) ≡ ran_on (ends_at refusal line) (part, out.old) }
{
    let to = write_refusal::add_refusal(out, part, refusal, line);
    Ran {
        part: to,
        place: Place::Over,
    }
}

// The lines behind `SS` and so many steps, from a state and a code.
fn add_steps(
    out: &mut [u8],
    part: Part,
    m: Both,
    begun: u32,
    start: usize,
    first: u64,
    run: &[u8],
) -> Ran
    ensures { (result, out.new) ≡ ran_on (ran_from m.entry.listing.now m.entry.terms.now (length m.entry.bits.now) begun start first (lines_of run.now)) (part, out.old) }
{
    let head = m.listing.head;
    let width = m.bits.len();
    let mut code = first;
    let mut state = start;
    let mut to = part;
    let mut done = begun;
    let mut at: usize = 0;
    let mut end = cut(run, 0, b'\n');
    while end < run.len() {
        let got = run_lines::vector_line(head, done as usize, &run[at..end]);
        let Ok(x) = got else {
            let refusal = got.err().unwrap_or(Refusal::BadLine);
            return add_end(out, to, refusal, done as usize + 2);
        };
        let moved = step_both(m, x, state, code);
        if moved.next == 0 {
            return add_end(out, to, Refusal::NoNext, done as usize + 2);
        }
        state = moved.state;
        code = moved.code;
        to = run_print::add_step(out, to, state, width, code, moved.outputs, head.outputs);
        done += 1;
        at = end + 1;
        end = cut(run, at, b'\n');
    }
    if at < end {
        return add_end(out, to, Refusal::BadLine, done as usize + 2);
    }
    let place = Place::Behind { done, state, code };
    Ran { part: to, place }
}

// The lines of a run from its first on.
fn add_first(out: &mut [u8], part: Part, m: Both, run: &[u8]) -> Ran
    ensures { (result, out.new) ≡ ran_on (ran_first m.entry.listing.now m.entry.terms.now m.entry.bits.now (lines_of run.now)) (part, out.old) }
{
    let end = cut(run, 0, b'\n');
    if run.len() <= end {
        return add_end(out, part, Refusal::BadLine, 1);
    }
    let got = run_lines::start_line(m.listing.head, &run[0..end]);
    let Ok(s) = got else {
        return add_end(out, part, got.err().unwrap_or(Refusal::BadLine), 1);
    };
    let start = s.0;
    let code = run_encoded::code_of(m.bits, start);
    let at = end + 1;
    add_steps(out, part, m, 0, start, code, &run[at..])
}

// A piece of a run, from a place in it on.
fn add_from(out: &mut [u8], part: Part, m: Both, place: Place, run: &[u8]) -> Ran
    ensures { (result, out.new) ≡ ran_on (ran_by m.entry.listing.now m.entry.terms.now m.entry.bits.now place (lines_of run.now)) (part, out.old) }
{
    match place {
        Place::First => add_first(out, part, m, run),
        Place::Behind { done, state, code } => add_steps(out, part, m, done, state, code, run),
        Place::Over => Ran {
            part,
            place: Place::Over,
        },
    }
}

// The lines that a piece of a run prints, from a place in the run on, added to a part; with the place that it comes to. The whole run is the piece from
// `Place::First` on.
pub fn add_piece(out: &mut [u8], part: Part, m: Machines, place: Place, run: &[u8]) -> Ran
    ensures { (result, out.new) ≡ ran_on (course_of m place run.now) (part, out.old) }
{
    let w = sets::least(m.width, rules::MOST_BITS);
    let both = Both {
        listing: &m.listing,
        terms: &m.terms,
        bits: &m.bits[..w],
    };
    add_from(out, part, both, place, run)
}
