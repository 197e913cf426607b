// The two states of a row: numbered where their names are new, the present before the next.
ghost use Rattle.std.specs.Prelude.{◌≡◌};
ghost use Rattle.read_kiss_rows.specs.Drafts.{called_of, states_of};

use read_kiss_lines::row::StatePieces;
use read_names::{Names, Piece};

// All states that there can be.
const EVERYONE: u64 = 18446744073709551615;

// The names when a field has named a state, and the state as a set.
#[derive(Clone, Copy)]
pub struct Called {
    pub names: Names,
    pub set: u64,
}

// The names when a row has named its states, and both as sets.
#[derive(Clone, Copy)]
pub struct RowStates {
    pub names: Names,
    pub group: u64,
    pub next: u64,
}

// The state that a piece of the text names; `*` stands for the set `star`; none where there is no room for its name.
fn state_called(s: &[u8], names: Names, p: Piece, star: u64) -> Option<Called>
    ensures { result ≡ called_of s.now names p star }
{
    let f = read_names::bytes_of(s, p);
    if read_kiss_lines::states::is_star(f) {
        return Some(Called {
            names: names,
            set: star,
        });
    }
    let n = read_names::number_of(s, names, f);
    if rules::MOST_STATES <= n {
        return None;
    }
    if n < names.count {
        return Some(Called {
            names: names,
            set: 1 << n,
        });
    }
    Some(Called {
        names: read_names::with_name(names, p),
        set: 1 << n,
    })
}

// Both states of a row.
#[tactic(auto, unfolding(crate::specs::Drafts::states_of, crate::specs::Drafts::states_by))]
pub fn row_states(s: &[u8], names: Names, pieces: StatePieces) -> Option<RowStates>
    ensures { result ≡ states_of s.now names pieces }
{
    let present = state_called(s, names, pieces.present, EVERYONE)?;
    let next = state_called(s, present.names, pieces.next, 0)?;
    Some(RowStates {
        names: next.names,
        group: present.set,
        next: next.set,
    })
}
