// Whether each destination of a table is stable in its column, and the first state that goes to one that is not.
ghost use Rattle.std.specs.Prelude.{◌≡◌, ◌<◌, ◌≤◌, length};
ghost use Rattle.rules.specs.Limits.{most_states, most_columns};
ghost use Rattle.sets.specs.Sets.{states_from};
ghost use Rattle.rules.specs.FlowTable.{is_stable, goes_well, stability};
ghost use Rattle.read_flow.specs.Table.{most_places, columns_in, goes_well_in};

use rules::{Refusal, Refused};

// Whether d is stable in this column; a dash is no destination.
#[tactic(auto, using(crate::proofs::Tables::stable_in), unfolding(rules::specs::FlowTable::is_stable))]
fn is_stable(column: &[u8], d: u8) -> bool
    ensures { result ≡ is_stable column.now d }
{
    if rules::NO_STATE <= d {
        return true;
    }
    let at = d as usize;
    at < column.len() && column[at] == d
}

// Whether state s goes to a stable destination of this column, or to none.
fn goes_well_in(column: &[u8], s: usize) -> bool
    requires { s < length column.now }
    ensures { result ≡ goes_well_in column.now s }
{
    is_stable(column, column[s])
}

// The same in each column of a table of n states.
fn goes_well(table: &[u8], n: usize, columns: usize, s: usize) -> bool
    requires { (n ≤ most_states) × (columns ≤ most_columns) × (length table.now ≡ most_places) × (s < n) }
    ensures { result ≡ goes_well (columns_in table.now n columns) s }
{
    for c in 0..columns {
        let at = c * rules::MOST_STATES;
        if !goes_well_in(&table[at..at + n], s) {
            return false;
        }
    }
    true
}

// The first state that does not: 13 at its line.
pub fn stability_of(table: &[u8], n: usize, columns: usize) -> Result<(), Refused>
    requires { (n ≤ most_states) × (columns ≤ most_columns) × (length table.now ≡ most_places) }
    ensures { result ≡ stability (columns_in table.now n columns) (states_from 0 n) }
{
    for s in 0..n {
        if !goes_well(table, n, columns, s) {
            return Err(Refusal::Unstable.at(s + 2));
        }
    }
    Ok(())
}
