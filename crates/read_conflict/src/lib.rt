// The scan for two rows that clash.
#![tactic(auto)]

ghost use Rattle.std.specs.Prelude.{◌≡◌, take};
ghost use Rattle.rules.specs.Listing.{clash, conflict};

use rules::{Refusal, Refused, Row};

// Whether two rows share an input vector and a state and name different next states.
#[tactic(auto, unfolding(rules::specs::Listing::clash))]
fn clashes(a: Row, b: Row) -> bool
    ensures { result ≡ clash a b }
{
    sharing::meet(a, b) && a.next != 0 && b.next != 0 && a.next != b.next
}

// The first pair of rows that clash, by the earlier row and then the later one: refused at the later row's line.
pub fn first_clash(rows: usize, table: [Row; rules::MOST_ROWS]) -> Result<(), Refused>
    ensures { result ≡ conflict (take rows table) }
{
    let n = sets::least(rows, rules::MOST_ROWS);
    let mut found: Result<(), Refused> = Ok(());
    'pairs: for i in 0..n {
        let a = table[i];
        for j in i + 1..n {
            let b = table[j];
            if clashes(a, b) {
                found = Err(Refusal::Conflict.at(b.line));
                break 'pairs;
            }
        }
    }
    found
}
