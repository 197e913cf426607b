// The search for the first code of so many columns that takes off all that is left: a column takes off what its mask has.
#![tactic(auto)]

ghost use Rattle.std.specs.Prelude.{◌≡◌, length};
ghost use Rattle.rules.specs.Least.{codes_up_to, first_with};
ghost use Rattle.code_search.specs.Search.{takes_all, searched, told, told_width};

// Whether columns from `from` on, one in each place and none lower than the one before it, take off all that is left: with no place more, whether nothing is
// left. Where they do, the places hold the first such code, and where none does they stay as they came.
pub fn search(met: &[u64], from: usize, left: u64, columns: &mut [usize]) -> bool
    ensures { (result, columns.new) ≡ told (searched met.now (length columns.old) from left) columns.old }
{
    if columns.is_empty() {
        return left == 0;
    }
    for v in from..met.len() {
        let less = families::without_of(left, met[v]);
        if search(met, v, less, &mut columns[1..]) {
            columns[0] = v;
            return true;
        }
    }
    false
}

// Of all codes of at most as many columns as there are places, the shorter ones first, the first that takes off all that is left: its width, while it
// goes to the first places; or none, and the places stay as they came.
pub fn search_widths(met: &[u64], left: u64, columns: &mut [usize]) -> Option<usize>
    ensures { (result, columns.new) ≡ told_width (first_with (takes_all met.now left) (codes_up_to (length met.now) (length columns.old))) columns.old }
{
    for w in 0..=columns.len() {
        if search(met, 0, left, &mut columns[..w]) {
            return Some(w);
        }
    }
    None
}
