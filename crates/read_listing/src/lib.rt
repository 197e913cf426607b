// The reader of a whole listing: any bytes give the listing that they say, or the refusal and its line.
#![tactic(auto)]

mod says;

ghost use Rattle.std.specs.Prelude.{◌≡◌, cond, ◌<◌};
ghost use Rattle.rules.specs.Text.{lines_of};
ghost use Rattle.rules.specs.FlowLines.{flow_head};
ghost use Rattle.rules.specs.Least.{begins_large, small_reading};
ghost use Rattle.rules.specs.Listing.{blank, complete, unended, read_lines, read_all, judged, reading};
ghost use Rattle.read_answers.specs.Lent.{lent};
ghost use Rattle.read_listing.specs.Says.{outputs_verdict, end_verdict, reading_of, first_verdict};

use read_answers::{blank_listing, settle_lent};
use read_flow::Flow;
use rules::{Head, Listing, Refusal, Refused};
use says::Said;

// The head that says nothing.
fn no_head() -> Head
    ensures { result ≡ blank.head }
{
    Head {
        states: 0,
        inputs: 0,
        outputs: 0,
        width: 0,
        keeps: false,
        moore: false,
    }
}

// Whether each state of a Moore machine is one of those given outputs.
fn is_complete(h: Head, given: u64) -> bool
    ensures { result ≡ complete h given }
{
    if !h.moore {
        return true;
    }
    for s in 0..h.states {
        if !sets::member(given, s) {
            return false;
        }
    }
    true
}

// After `EN`, which stood on line k: a state of a Moore machine without outputs is 17.
fn outputs_verdict(k: usize, h: Head, given: u64) -> Result<(), Refused>
    ensures { result ≡ outputs_verdict k h given }
{
    if is_complete(h, given) {
        return Ok(());
    }
    Err(Refusal::NoOutputs.at(k))
}

// After `EN`, which stood on line k: bytes behind it are 3, on the line after its own; then a state without outputs is 17.
fn end_verdict(k: usize, h: Head, given: u64, rest: &[u8]) -> Result<(), Refused>
    requires { k < 18446744073709551615 }
    ensures { result ≡ end_verdict k h given (lines_of rest.now) }
{
    if rest.len() != 0 {
        return Err(Refusal::Place.at(k + 1));
    }
    outputs_verdict(k, h, given)
}

// Why the listing breaks off with what stands behind the last LF, as line k, under the head h and behind `OU` lines of the states given.
fn break_off(k: usize, h: Head, given: u64, l: &[u8]) -> Refused
    ensures { unended k h given l.now ≡ Err result }
{
    if l.len() == 0 {
        return Refusal::Place.at(k);
    }
    if says::in_place(read_marks::mark_of(l), k, h, given, l) {
        return Refusal::BadLine.at(k);
    }
    Refusal::Place.at(k)
}

// The lines from the top, until one of them decides. The listing is lent, so that it lies where the caller's does and takes no stack of its own; it is left as
// it stands then, refused or not.
fn read_lines(s: &[u8], t: &mut Listing) -> Result<(), Refused>
    ensures { judged result t.new ≡ read_lines 1 blank (lines_of s.now) }
{
    let none = blank_listing();
    *t = none;
    let mut k: usize = 1;
    let mut at: usize = 0;
    let mut end = read_pieces::cut(s, 0, b'\n');
    while end < s.len() {
        let said = says::line_said(k, t.head, t.rows, t.dichotomies, t.given, &s[at..end]);
        // An answer that is no step holds why the line is refused.
        let Ok(step) = said else {
            return Err(said.err().unwrap_or(Refusal::BadLine).at(k));
        };
        at = end + 1;
        match step {
            Said::End => return end_verdict(k, t.head, t.given, &s[at..]),
            Said::Head(h) => t.head = h,
            Said::Row(r) => {
                let n = t.rows;
                t.table[n] = r;
                t.rows = n + 1;
            }
            Said::Dichotomy(d) => {
                let n = t.dichotomies;
                t.asked[n] = d;
                t.dichotomies = n + 1;
            }
            Said::Outputs(o) => {
                let n = o.state.0;
                t.said[n] = o.outputs;
                t.given = t.given | (1 << n);
            }
        }
        k += 1;
        end = read_pieces::cut(s, at, b'\n');
    }
    Err(break_off(k, t.head, t.given, &s[at..]))
}

// The head of a flow table, if lines l and m begin one.
#[tactic(auto, unfolding(rules::specs::FlowLines::flow_head))]
fn flow_head(l: &[u8], m: &[u8]) -> Result<Head, Refusal>
    ensures { result ≡ flow_head l.now m.now }
{
    if read_marks::leads(l, b"MC") && read_marks::leads(m, b"FT") {
        read_head::head_line(false, l)
    } else {
        Err(Refusal::Place)
    }
}

// What was read of a flow table, under its head.
fn flow_reading(h: Head, read: Result<Flow, Refused>, t: &mut Listing) -> Result<(), Refused>
    ensures { judged result t.new ≡ reading_of h read }
{
    let f = read?;
    let none = blank_listing();
    *t = none;
    let asked = f.asked;
    t.head = h;
    t.dichotomies = f.dichotomies;
    t.asked = asked;
    Ok(())
}

// All lines: those of a flow table, or of an ordinary listing. Behind a line without LF stands nothing, which begins no flow table.
fn read_all(s: &[u8], t: &mut Listing) -> Result<(), Refused>
    ensures { judged result t.new ≡ read_all (lines_of s.now) }
{
    let end = read_pieces::cut(s, 0, b'\n');
    let at = sets::least(end + 1, s.len());
    let next = read_pieces::cut(s, at, b'\n');
    let head = flow_head(&s[0..end], &s[at..next]);
    match head {
        Ok(h) => flow_reading(h, read_flow::read_flow(h, &s[at..]), t),
        Err(_) => read_lines(s, t),
    }
}

// Whether the first line, which LF ends, is a head line that names more states than a small machine has.
fn begins_large(s: &[u8]) -> bool
    ensures { result ≡ begins_large (lines_of s.now) }
{
    let at: usize = 0;
    let end = read_pieces::cut(s, 0, b'\n');
    if end < s.len() {
        let said = says::line_said(1, no_head(), 0, 0, 0, &s[at..end]);
        return rules::MOST_SMALL < says::states_said(said);
    }
    false
}

// Why bytes are not read at all: there are more than a listing may have, or the first line names more states than a small machine has, which they are to be of.
fn first_verdict(small: bool, s: &[u8]) -> Result<(), Refused>
    ensures { result ≡ first_verdict small s.now }
{
    if rules::MOST_BYTES < s.len() {
        return Err(Refusal::Limit.at(0));
    }
    if !small {
        return Ok(());
    }
    if begins_large(s) {
        return Err(Refusal::Limit.at(1));
    }
    Ok(())
}

// Any bytes at all, read as the listing of a small machine, of which more states are a fault of line 1, or as any listing, into a listing that is lent: the
// verdict, and there the listing, which is blank where it is refused. It is one function, and not one for each, so that the reading is called in one place.
pub fn read_lent(small: bool, bytes: &[u8], t: &mut Listing) -> Result<(), Refused>
    ensures { (result, t.new) ≡ lent (cond small (small_reading bytes.now) (reading bytes.now)) }
{
    let first = first_verdict(small, bytes);
    if first.is_err() {
        let none = blank_listing();
        *t = none;
        return first;
    }
    let said = read_all(bytes, t);
    settle_lent(said, t)
}

// The same as one value: the listing, or the refusal and its line.
pub fn read_as(small: bool, bytes: &[u8]) -> Result<Listing, Refused>
    ensures { result ≡ cond small (small_reading bytes.now) (reading bytes.now) }
{
    let mut t = blank_listing();
    read_lent(small, bytes, &mut t)?;
    Ok(t)
}
