// What a row does to what the lines of a KISS2 text have said so far: its states are numbered, and it joins a row that is there or is a new one.
#![tactic(auto)]

mod joining;
mod states;

ghost use Rattle.std.specs.Prelude.{◌≡◌};
ghost use Rattle.read_kiss_rows.specs.Drafts.{more_of};

use read_kiss_lines::row::KissRow;
use read_names::Names;
use rules::{KissHeads, Row};

// What the lines so far have said: the headers, the names, and the rows, in the first places of a table.
#[derive(Clone, Copy)]
pub struct Draft {
    pub heads: KissHeads,
    pub names: Names,
    pub rows: usize,
    pub table: [Row; rules::MOST_ROWS],
}

// The draft with the row of line k, whose states stand in the text s, under headers that have counted its line; none where a state or the row has no room.
#[tactic(auto, unfolding(crate::specs::Drafts::more_of, crate::specs::Drafts::more_by))]
pub fn with_row(s: &[u8], k: usize, row: KissRow, h: KissHeads, d: Draft) -> Option<Draft>
    ensures { result ≡ more_of s.now k row h d }
{
    let named = states::row_states(s, d.names, row.states)?;
    let next = Row {
        input: row.input,
        group: named.group,
        next: named.next,
        outputs: row.outputs,
        line: k,
    };
    joining::join(h, named.names, d.rows, d.table, next)
}
