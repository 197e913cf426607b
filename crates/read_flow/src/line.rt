// One line of a flow table: its entries, whether they are in order, and the table with them. Column c of the table has the 64 places from 64 × c on.
ghost use Rattle.std.specs.Prelude.{◌≡◌, ◌+◌, ◌<◌, ◌≤◌};
ghost use Rattle.rules.specs.Limits.{most_states, most_columns};
ghost use Rattle.rules.specs.Text.{bytes, same, field_at};
ghost use Rattle.rules.specs.FlowLines.{entry_of, is_entry, entry_at, flow_line};
ghost use Rattle.read_flow.specs.Table.{all_entries, blank_table, store_from};

use rules::Refusal;

// The places of a table: 64 for each of 16 columns.
pub const PLACES: usize = 1024;

#[tactic(auto, using(crate::proofs::Entries::dashes))]
fn is_dash(f: &[u8]) -> bool
    ensures { result ≡ same f.now (bytes "-") }
{
    f.len() == 1 && f[0] == b'-'
}

// What a field says as an entry: a state number below n, or a dash, which has the number that no state has.
#[tactic(auto, unfolding(rules::specs::FlowLines::entry_of))]
fn entry_of(n: usize, f: &[u8]) -> Option<usize>
    ensures { result ≡ entry_of n f.now }
{
    if is_dash(f) {
        return Some(rules::MOST_STATES);
    }
    let v = read_fields::numeral_of(f)?;
    if n <= v {
        return None;
    }
    Some(v)
}

// Whether column c of a line has an entry.
fn has_entry(n: usize, l: &[u8], c: usize) -> bool
    requires { c < most_columns }
    ensures { result ≡ is_entry (entry_of n (field_at l.now (c + 1))) }
{
    entry_of(n, read_pieces::field(l, c + 1)).is_some()
}

// Whether each column of a line has one.
fn all_entries(n: usize, columns: usize, l: &[u8]) -> bool
    requires { columns ≤ most_columns }
    ensures { result ≡ all_entries n columns l.now }
{
    for c in 0..columns {
        if !has_entry(n, l, c) {
            return false;
        }
    }
    true
}

// What a line of so many columns says, of n states.
#[tactic(auto, unfolding(rules::specs::FlowLines::flow_line, crate::specs::Table::all_entries))]
pub fn flow_line(n: usize, columns: usize, l: &[u8]) -> Result<(), Refusal>
    ensures { result ≡ flow_line n columns l.now }
{
    let fits = 1 <= columns
        && columns <= rules::MOST_COLUMNS
        && read_pieces::field_count(l) == columns + 1
        && all_entries(n, columns, l);
    if fits { Ok(()) } else { Err(Refusal::BadLine) }
}

// The entry of a line in column c; a dash where it has none.
fn value_at(n: usize, l: &[u8], c: usize) -> u8
    requires { (n ≤ most_states) × (c < most_columns) }
    ensures { result ≡ entry_at n c l.now }
{
    match entry_of(n, read_pieces::field(l, c + 1)) {
        Some(v) => v as u8,
        None => rules::NO_STATE,
    }
}

// The table without a line: dashes.
pub fn blank_table() -> [u8; PLACES]
    ensures { result ≡ blank_table }
{
    [rules::NO_STATE; PLACES]
}

// The table with the entries of a line, that of state s.
pub fn with_line(table: [u8; PLACES], s: usize, n: usize, columns: usize, l: &[u8]) -> [u8; PLACES]
    requires { (s < most_states) × (n ≤ most_states) × (columns ≤ most_columns) }
    ensures { result ≡ store_from n l.now s 0 columns table }
{
    let mut filled = table;
    for c in 0..columns {
        filled[c * rules::MOST_STATES + s] = value_at(n, l, c);
    }
    filled
}
