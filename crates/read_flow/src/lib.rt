// The reader of a flow table, from the line behind its head on: any bytes give the dichotomies of its columns, or the refusal and its line.
#![tactic(auto)]

mod asks;
mod line;
mod says;
mod stable;

ghost use Rattle.std.specs.Prelude.{◌≡◌, ◌<◌, ◌≤◌, length};
ghost use Rattle.rules.specs.Limits.{most_states, most_columns};
ghost use Rattle.rules.specs.Text.{lines_of};
ghost use Rattle.rules.specs.FlowLines.{column_count};
ghost use Rattle.rules.specs.Listing.{flow_read, flow_unended, flow_lines};
ghost use Rattle.read_flow.specs.Table.{most_places, columns_in};
ghost use Rattle.read_flow.specs.Flows.{flow_of, flow_given, flow_end, flow_table};

use asks::Gathered;
use rules::{Head, Refusal, Refused, Requirement};
use says::Said;

// What a flow table gives: the dichotomies of its columns, in the first places of a table.
#[derive(Clone, Copy)]
pub struct Flow {
    pub dichotomies: usize,
    pub asked: [Requirement; rules::MOST_DICHOTOMIES],
}

// What was gathered, of which more than 64 are too many.
fn give(g: Gathered) -> Result<Flow, Refused>
    ensures { result ≡ flow_given g }
{
    if rules::MOST_DICHOTOMIES < g.count {
        return Err(Refusal::Limit.at(0));
    }
    let asked = g.asked;
    Ok(Flow {
        dichotomies: g.count,
        asked,
    })
}

// A table that is filled: a destination that is not stable is 13, then too many dichotomies 2.
fn judge(h: Head, columns: usize, table: &[u8]) -> Result<Flow, Refused>
    requires { (h.states ≤ most_states) × (columns ≤ most_columns) × (length table.now ≡ most_places) }
    ensures { result ≡ flow_of (flow_read h (columns_in table.now h.states columns)) }
{
    stable::stability_of(table, h.states, columns)?;
    give(asks::gather(table, h.states, columns))
}

// After `EN`, which stood on line k: bytes behind it are 3, on the line after its own.
fn finish(k: usize, h: Head, columns: usize, table: &[u8], rest: &[u8]) -> Result<Flow, Refused>
    requires { (k < 18446744073709551615) × (h.states ≤ most_states) × (columns ≤ most_columns) × (length table.now ≡ most_places) }
    ensures { result ≡ flow_of (flow_end k h (columns_in table.now h.states columns) (lines_of rest.now)) }
{
    if rest.len() != 0 {
        return Err(Refusal::Place.at(k + 1));
    }
    judge(h, columns, table)
}

// What stands behind the last LF, as line k.
fn break_off(k: usize, n: usize, l: &[u8]) -> Result<Flow, Refused>
    requires { n ≤ most_states }
    ensures { result ≡ flow_of (flow_unended k n l.now) }
{
    if l.len() == 0 {
        return Err(Refusal::Place.at(k));
    }
    if says::in_place(read_marks::mark_of(l), k, n) {
        return Err(Refusal::BadLine.at(k));
    }
    Err(Refusal::Place.at(k))
}

// How many columns the first line has.
fn columns_of(s: &[u8]) -> usize
    ensures { result ≡ column_count (lines_of s.now) }
{
    let end = read_pieces::cut(s, 0, b'\n');
    read_pieces::field_count(&s[0..end]) - 1
}

// The lines from the first behind the head on, until one of them decides.
fn read_lines(h: Head, s: &[u8]) -> Result<Flow, Refused>
    requires { (1 ≤ h.states) × (h.states ≤ most_states) }
    ensures { result ≡ flow_of (flow_lines 2 h (lines_of s.now) (lines_of s.now)) }
{
    let n = h.states;
    let columns = columns_of(s);
    let mut table = line::blank_table();
    let mut k: usize = 2;
    let mut at: usize = 0;
    let mut end = read_pieces::cut(s, 0, b'\n');
    while end < s.len() {
        let said = says::line_said(k, n, columns, &s[at..end]);
        // An answer that is no step holds why the line is refused.
        let Ok(step) = said else {
            return Err(said.err().unwrap_or(Refusal::BadLine).at(k));
        };
        match step {
            Said::End => return finish(k, h, columns, &table, &s[end + 1..]),
            Said::Line => table = line::with_line(table, k - 2, n, columns, &s[at..end]),
        }
        at = end + 1;
        k += 1;
        end = read_pieces::cut(s, at, b'\n');
    }
    break_off(k, n, &s[at..])
}

// The lines behind the head h of a flow table; a head that no head line can say is 2.
#[tactic(auto, unfolding(crate::specs::Flows::flow_table))]
pub fn read_flow(h: Head, s: &[u8]) -> Result<Flow, Refused>
    ensures { result ≡ flow_of (flow_table h s.now) }
{
    if h.states < 1 || rules::MOST_STATES < h.states {
        return Err(Refusal::Limit.at(0));
    }
    read_lines(h, s)
}
