// Whether a listing is fair: within 01's limits, its groups and blocks sets of its states, no block overlapping its other.
#![tactic(auto)]

mod checks;

ghost use Rattle.std.specs.Prelude.{◌≡◌};
ghost use Rattle.code_fair.specs.Fair.{fair};

use rules::Listing;

// Whether a listing is one that the encoder takes.
pub fn is_fair(t: Listing) -> bool
    ensures { result ≡ fair t }
{
    if !checks::within_limits(t) {
        return false;
    }
    let all = sets::everyone_of(t.head.states);
    let rows = &t.table[..t.rows];
    let asked = &t.asked[..t.dichotomies];
    checks::groups_within(all, rows) && checks::dichotomies_within(all, asked)
}
