// The reader of a KISS2 text: any bytes give the listing that they say and the names of its states, or the refusal and its line.
#![tactic(auto)]

mod ending;
mod says;

ghost use Rattle.std.specs.Prelude.{◌≡◌, ◌+◌, ◌<◌, ◌≤◌};
ghost use Rattle.rules.specs.Limits.{most_states};
ghost use Rattle.rules.specs.Text.{lines_of};
ghost use Rattle.rules.specs.Kiss.{with_line, no_draft, kiss_made, kiss_reading};
ghost use Rattle.read_kiss_rows.specs.Drafts.{more_of};
ghost use Rattle.read_kiss.specs.Says.{Places, moved_by, moved_row, no_draft_yet, reset_to};
ghost use Rattle.read_kiss.specs.Walks.{walked, held, Walks, NamedBy};

use read_kiss_lines::row::{KissRow, StatePieces};
use read_kiss_rows::Draft;
use read_names::{Names, Piece};
use rules::{KissHeads, Listing, Pattern, Refusal, Refused, Row, Told};
use says::Said;

// No headers, names or rows yet.
fn no_draft() -> Draft
    ensures { result ≡ no_draft_yet }
{
    let untold = Told { number: 0, line: 0 };
    let heads = KissHeads {
        inputs: 0,
        outputs: 0,
        states: untold,
        products: untold,
        reset: false,
        lines: 0,
    };
    let none = Pattern { ones: 0, dashes: 0 };
    let row = Row {
        input: none,
        group: 0,
        next: 0,
        outputs: none,
        line: 0,
    };
    let table = [row; rules::MOST_ROWS];
    Draft {
        heads: heads,
        names: read_names::no_names(),
        rows: 0,
        table: table,
    }
}

// A piece of the line that starts at `at`, as a piece of the text.
fn moved(at: usize, p: Piece) -> Piece
    requires { (at + p.start < 18446744073709551616) × (at + p.end < 18446744073709551616) }
    ensures { result ≡ moved_by at p }
{
    Piece {
        start: at + p.start,
        end: at + p.end,
    }
}

// The name of `.r` is the first.
fn with_reset(at: usize, p: Piece, d: Draft) -> Draft
    requires { (at + p.start < 18446744073709551616) × (at + p.end < 18446744073709551616) }
    ensures { result ≡ reset_to at p d }
{
    let mut h = d.heads;
    h.reset = true;
    let names = read_names::with_name(read_names::no_names(), moved(at, p));
    let mut next = d;
    next.heads = h;
    next.names = names;
    next
}

// The row that the line from `at` on says, as line k, counted and joined; none where there is no room for it.
fn row_added(s: &[u8], at: usize, k: usize, row: KissRow, d: Draft) -> Option<Draft>
    requires { Places at row × (d.heads.lines < 18446744073709551615) }
    ensures { result ≡ more_of s.now k (moved_row at row) (with_line d.heads) d }
{
    let mut h = d.heads;
    h.lines = h.lines + 1;
    let states = StatePieces {
        present: moved(at, row.states.present),
        next: moved(at, row.states.next),
    };
    let mut whole = row;
    whole.states = states;
    read_kiss_rows::with_row(s, k, whole, h, d)
}

// The lines from the top, until one of them decides: what they make goes into the draft, and the answer is whether one of them is refused, and why. The draft is
// lent, with nothing in it yet: in a `Result` it would be held twice, in the answer and where it is taken out.
fn read_lines(s: &[u8], d: &mut Draft) -> Result<(), Refused>
    requires { d.now ≡ no_draft_yet }
    ensures { Walks s.now (held result d.new) (walked 1 no_draft (lines_of s.now)) }
{
    let mut k: usize = 1;
    let mut at: usize = 0;
    let mut end = read_pieces::cut(s, 0, b'\n');
    while end < s.len() {
        let said = says::line_said(k, d.heads, d.names.count, &s[at..end]);
        // An answer that is no step holds why the line is refused.
        let Ok(step) = said else {
            return Err(said.err().unwrap_or(Refusal::BadLine).at(k));
        };
        let next = end + 1;
        match step {
            Said::End => return ending::after_end(k, &s[next..]),
            Said::Heads(h) => d.heads = h,
            Said::Reset(p) => *d = with_reset(at, p, *d),
            Said::Row(row) => {
                let Some(more) = row_added(s, at, k, row, *d) else {
                    return Err(Refusal::Limit.at(k));
                };
                *d = more;
            }
        }
        at = next;
        k += 1;
        end = read_pieces::cut(s, at, b'\n');
    }
    Err(ending::break_off(k, d.heads, &s[at..]))
}

// The listing that the lines made, or the refusal.
fn made_of(d: Draft) -> Result<Listing, Refused>
    requires { d.names.count ≤ most_states }
    ensures { result ≡ kiss_made d.heads d.names.count d.rows d.table }
{
    let table = d.table;
    ending::finish(d.heads, d.names.count, d.rows, table)
}

// Any bytes at all: the listing, or the refusal and its line.
pub fn read_kiss(bytes: &[u8]) -> Result<Listing, Refused>
    ensures { result ≡ kiss_reading bytes.now }
{
    if rules::MOST_BYTES < bytes.len() {
        return Err(Refusal::Limit.at(0));
    }
    let mut d = no_draft();
    read_lines(bytes, &mut d)?;
    let read = d;
    made_of(read)
}

// The names of the states, as places in the bytes; or the refusal of the whole text, and its line.
pub fn read_named(bytes: &[u8]) -> Result<Names, Refused>
    ensures { NamedBy bytes.now result }
{
    if rules::MOST_BYTES < bytes.len() {
        return Err(Refused::from(Refusal::Limit));
    }
    let mut d = no_draft();
    read_lines(bytes, &mut d)?;
    let read = d;
    made_of(read)?;
    let names = read.names;
    Ok(names)
}
