// Whether a listing and a cover are alike row by row: what a row of the one says, a row of the other says too, which fires wherever the first does. Then
// they say the same everywhere, and no input has to be looked at.
ghost use Rattle.std.specs.Prelude.{◌≡◌, ◌<◌, ◌≤◌};
ghost use Rattle.rules.specs.Limits.{most_inputs};
ghost use Rattle.judge_search.specs.Rows.{all_row_places};
ghost use Rattle.judge_search.specs.Backing.{within, of_listing, of_cover, backed_by, backed, unbacked, any_unbacked, share_inputs, clash, clashes, any_clash, row_by_row, no_sayings};

use super::{ALL_ROWS, FIRES_WORDS, Firing, LISTING_ROWS, SAYS_WORDS, firing_at};

// One of the four numbers of what each of some rows says. It is told by its place, 0 to 3, since a table is read there: a name for each would have to be turned
// into its place again.
#[derive(Clone, Copy)]
pub struct Sayings {
    pub number: usize,
    pub from: usize,
    pub to: usize,
}

// A number of the listing's rows, and of the cover's.
fn of_listing(number: usize) -> Sayings
    ensures { result ≡ of_listing number }
{
    Sayings {
        number,
        from: 0,
        to: LISTING_ROWS,
    }
}

fn of_cover(number: usize) -> Sayings
    ensures { result ≡ of_cover number }
{
    Sayings {
        number,
        from: LISTING_ROWS,
        to: ALL_ROWS,
    }
}

// Whether all members of a set are members of another.
fn is_within(a: u64, b: u64) -> bool
    ensures { result ≡ within a b }
{
    a & b == a
}

// Whether row y fires wherever row x does, and says in its number g all that x says in its number f.
fn is_backed_by(
    fires: &[u64; FIRES_WORDS],
    says: &[u64; SAYS_WORDS],
    f: usize,
    g: usize,
    x: usize,
    y: usize,
) -> bool
    requires { (f < 4) × (g < 4) × (x < all_row_places) × (y < all_row_places) }
    ensures { result ≡ backed_by fires.now says.now f g x y }
{
    let one = firing_at(fires, x);
    let other = firing_at(fires, y);
    if one.ones != other.ones {
        return false;
    }
    if one.dashes != other.dashes {
        return false;
    }
    if !is_within(one.states, other.states) {
        return false;
    }
    is_within(says[x * 4 + f], says[y * 4 + g])
}

// Whether one of some rows does so.
fn is_backed(
    fires: &[u64; FIRES_WORDS],
    says: &[u64; SAYS_WORDS],
    f: usize,
    by: Sayings,
    x: usize,
) -> bool
    requires { (f < 4) × (by.number < 4) × (by.to ≤ all_row_places) × (x < all_row_places) }
    ensures { result ≡ backed fires.now says.now f by x }
{
    (by.from..by.to).any(|y| is_backed_by(fires, says, f, by.number, x, y))
}

// Whether row x fires somewhere, and says in its number f what none of those rows says.
fn is_unbacked(
    fires: &[u64; FIRES_WORDS],
    says: &[u64; SAYS_WORDS],
    f: usize,
    by: Sayings,
    x: usize,
) -> bool
    requires { (f < 4) × (by.number < 4) × (by.to ≤ all_row_places) × (x < all_row_places) }
    ensures { result ≡ unbacked fires.now says.now f by x }
{
    if firing_at(fires, x).states == 0 {
        return false;
    }
    if says[x * 4 + f] == 0 {
        return false;
    }
    !is_backed(fires, says, f, by, x)
}

// Whether one of some rows does so.
fn has_unbacked(
    fires: &[u64; FIRES_WORDS],
    says: &[u64; SAYS_WORDS],
    of: Sayings,
    by: Sayings,
) -> bool
    requires { (of.number < 4) × (of.to ≤ all_row_places) × (by.number < 4) × (by.to ≤ all_row_places) }
    ensures { result ≡ any_unbacked fires.now says.now of by }
{
    (of.from..of.to).any(|x| is_unbacked(fires, says, of.number, by, x))
}

// Whether a row of the cover says in its number f what no row of the listing says in its number g.
fn adds(fires: &[u64; FIRES_WORDS], says: &[u64; SAYS_WORDS], f: usize, g: usize) -> bool
    requires { (f < 4) × (g < 4) }
    ensures { result ≡ any_unbacked fires.now says.now (of_cover f) (of_listing g) }
{
    has_unbacked(fires, says, of_cover(f), of_listing(g))
}

// Whether a row of the listing says in its number f what no row of the cover says in its number g.
fn drops(fires: &[u64; FIRES_WORDS], says: &[u64; SAYS_WORDS], f: usize, g: usize) -> bool
    requires { (f < 4) × (g < 4) }
    ensures { result ≡ any_unbacked fires.now says.now (of_listing f) (of_cover g) }
{
    has_unbacked(fires, says, of_listing(f), of_cover(g))
}

// Whether a row of the cover says a dash of a bit of the next code: there are no rows that could back it.
fn has_next_dash(fires: &[u64; FIRES_WORDS], says: &[u64; SAYS_WORDS]) -> bool
    ensures { result ≡ any_unbacked fires.now says.now (of_cover 1) no_sayings }
{
    let none = Sayings {
        number: 0,
        from: 0,
        to: 0,
    };
    has_unbacked(fires, says, of_cover(1), none)
}

// Whether two rows let some input stand both, of so many inputs.
fn share_inputs(inputs: usize, one: Firing, other: Firing) -> bool
    requires { inputs ≤ most_inputs }
    ensures { result ≡ share_inputs inputs one.ones other.ones one.dashes other.dashes }
{
    let unlike = one.ones ^ other.ones;
    let free = one.dashes | other.dashes;
    unlike & !free & sets::everyone_of(inputs) == 0
}

// Whether row x says a dash of an output of which row y says 1, and the two can fire together.
fn is_clash(
    fires: &[u64; FIRES_WORDS],
    says: &[u64; SAYS_WORDS],
    inputs: usize,
    x: usize,
    y: usize,
) -> bool
    requires { (inputs ≤ most_inputs) × (x < all_row_places) × (y < all_row_places) }
    ensures { result ≡ clash fires.now says.now inputs x y }
{
    if says[x * 4 + 3] & says[y * 4 + 2] == 0 {
        return false;
    }
    let one = firing_at(fires, x);
    let other = firing_at(fires, y);
    if one.states & other.states == 0 {
        return false;
    }
    share_inputs(inputs, one, other)
}

// Whether a row of the listing is such a row y.
fn is_clashing(
    fires: &[u64; FIRES_WORDS],
    says: &[u64; SAYS_WORDS],
    inputs: usize,
    x: usize,
) -> bool
    requires { (inputs ≤ most_inputs) × (x < all_row_places) }
    ensures { result ≡ clashes fires.now says.now inputs x }
{
    (0..LISTING_ROWS).any(|y| is_clash(fires, says, inputs, x, y))
}

// Whether a row of the cover is such a row x.
fn has_clash(fires: &[u64; FIRES_WORDS], says: &[u64; SAYS_WORDS], inputs: usize) -> bool
    requires { inputs ≤ most_inputs }
    ensures { result ≡ any_clash fires.now says.now inputs }
{
    (LISTING_ROWS..ALL_ROWS).any(|x| is_clashing(fires, says, inputs, x))
}

// Whether the two are alike row by row: the outputs that are 1 and those that are dashes, the next code, and the outputs and the code back.
pub fn is_row_by_row(fires: &[u64; FIRES_WORDS], says: &[u64; SAYS_WORDS], inputs: usize) -> bool
    requires { inputs ≤ most_inputs }
    ensures { result ≡ row_by_row fires.now says.now inputs }
{
    // One test after the other, and not seven joined by `&&`: a proof of the joined form has to put the seven together again.
    if adds(fires, says, 2, 2) {
        return false;
    }
    if adds(fires, says, 3, 3) {
        return false;
    }
    if adds(fires, says, 0, 1) {
        return false;
    }
    if has_next_dash(fires, says) {
        return false;
    }
    if drops(fires, says, 2, 2) {
        return false;
    }
    if drops(fires, says, 1, 0) {
        return false;
    }
    !has_clash(fires, says, inputs)
}
