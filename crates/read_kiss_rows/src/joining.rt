// A row among those that are there: it joins the first with its input, next state and outputs, or stands behind the last.
ghost use Rattle.std.specs.Prelude.{◌≡◌, take};
ghost use Rattle.rules.specs.Kiss.{same_pattern, same_row, place_of};
ghost use Rattle.read_kiss_rows.specs.Drafts.{join_of};

use super::Draft;
use read_names::Names;
use rules::{KissHeads, Pattern, Row};

// Whether two fields of `0 1 -` are the same: mask by mask, since a `Pattern` has no `==` of its own.
fn same_pattern(p: Pattern, q: Pattern) -> bool
    ensures { result ≡ same_pattern p q }
{
    p.ones == q.ones && p.dashes == q.dashes
}

// Whether two rows have the same input, next state and outputs.
#[tactic(auto, unfolding(rules::specs::Kiss::same_row))]
fn same_row(r: Row, q: Row) -> bool
    ensures { result ≡ same_row r q }
{
    same_pattern(r.input, q.input) && r.next == q.next && same_pattern(r.outputs, q.outputs)
}

// The place of the first row that r joins, or the place behind the last.
fn place_of(rows: usize, table: [Row; rules::MOST_ROWS], r: Row) -> usize
    ensures { result ≡ place_of r (take rows table) }
{
    let n = sets::least(rows, rules::MOST_ROWS);
    for i in 0..n {
        if same_row(r, table[i]) {
            return i;
        }
    }
    n
}

// The rows with r among them; none where there are as many as there may be.
pub fn join(
    h: KissHeads,
    names: Names,
    rows: usize,
    table: [Row; rules::MOST_ROWS],
    r: Row,
) -> Option<Draft>
    ensures { result ≡ join_of h names rows table r }
{
    let place = place_of(rows, table, r);
    if rules::MOST_ROWS <= place {
        return None;
    }
    let mut next = table;
    if place < rows {
        let mut old = table[place];
        old.group = old.group | r.group;
        next[place] = old;
        return Some(Draft {
            heads: h,
            names: names,
            rows: rows,
            table: next,
        });
    }
    next[place] = r;
    Some(Draft {
        heads: h,
        names: names,
        rows: place + 1,
        table: next,
    })
}
