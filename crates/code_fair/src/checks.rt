// Whether a listing is fair: its numbers, its groups and its dichotomies, one after the other.
ghost use Rattle.std.specs.Prelude.{◌≡◌};
ghost use Rattle.std.specs.List.{list_all};
ghost use Rattle.code_fair.specs.Fair.{group_under, blocks_under, within_limits};

use rules::{Listing, Requirement, Row};

// Whether the numbers of a listing are within the limits.
#[tactic(auto, unfolding(crate::specs::Fair::within_limits))]
pub fn within_limits(t: Listing) -> bool
    ensures { result ≡ within_limits t }
{
    1 <= t.head.states
        && t.head.states <= rules::MOST_STATES
        && t.head.width <= rules::MOST_BITS
        && t.rows <= rules::MOST_ROWS
        && t.dichotomies <= rules::MOST_DICHOTOMIES
}

// Whether the group of each row is a set of the states, which are those of `all`.
pub fn groups_within(all: u64, rows: &[Row]) -> bool
    ensures { result ≡ list_all (group_under all) rows.now }
{
    rows.iter().all(|row| row.group <= all)
}

// Whether a dichotomy has two blocks of the states that have none in common.
fn blocks_within(all: u64, d: Requirement) -> bool
    ensures { result ≡ blocks_under all d }
{
    d.first <= all && d.second <= all && d.first & d.second == 0
}

// Whether each dichotomy has.
pub fn dichotomies_within(all: u64, asked: &[Requirement]) -> bool
    ensures { result ≡ list_all (blocks_under all) asked.now }
{
    asked.iter().all(|d| blocks_within(all, *d))
}
