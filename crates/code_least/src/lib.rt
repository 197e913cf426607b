// The least code of a small machine: what each column meets, and the search among all codes.
#![tactic(auto)]

mod table;

ghost use Rattle.std.specs.Prelude.{◌≡◌, ◌≤◌, length};
ghost use Rattle.rules.specs.Limits.{most_states, most_bits, most_small, most_small_bits};
ghost use Rattle.rules.specs.Least.{columns_of, least};
ghost use Rattle.families.specs.Families.{requirements_in};
ghost use Rattle.code_search.specs.Search.{told_width};
ghost use Rattle.code_least.specs.Drawn.{Drawn, Small};
ghost use Rattle.code_least.specs.Encode.{coded_as, Within, found_as, answer_of, small_encoded, least_encoded};

use rules::{Encoding, Refusal, Refused};

// The columns of the most states that a small machine has.
const COLUMNS: usize = 32;

// The code of n states with these columns, which leaves nothing of what is asked unmet.
fn coded_as(n: usize, asked: usize, code: &[usize]) -> Encoding
    requires { (n ≤ most_states) × (length code.now ≤ most_bits) }
    ensures { result ≡ coded_as n asked code.now }
{
    let mut bits = [0u64; rules::MOST_BITS];
    table::fill_bits(n, code, &mut bits);
    Encoding {
        width: code.len(),
        bits,
        asked,
        unmet: 0,
        passes: 0,
        looks: 0,
    }
}

// The answer for what a search found in the first of these places.
fn found_as(
    n: usize,
    asked: usize,
    found: Option<usize>,
    code: &[usize],
) -> Result<Encoding, Refused>
    requires { (n ≤ most_states) × Within found code.now }
    ensures { result ≡ found_as n asked found code.now }
{
    match found {
        Some(w) => Ok(coded_as(n, asked, &code[..w])),
        None => code_encoding::uncoded_as(Refusal::NoShortCode),
    }
}

// How many columns a small machine has.
fn columns_of(n: usize) -> usize
    requires { (1 ≤ n) × (n ≤ most_small) }
    ensures { (result ≡ columns_of n) × (result ≤ 32) }
{
    1 << (n - 1)
}

// The least code of a small machine, as its columns in the first places: its width, or that there is none.
fn search_code(n: usize, asked: usize, fs: &[u64], code: &mut [usize]) -> Option<usize>
    requires { Small n asked fs.now × (length code.old ≡ most_small_bits) }
    ensures { (result, code.new) ≡ told_width (least n (requirements_in fs.now)) code.old }
{
    let mut met = [0u64; COLUMNS];
    let columns = columns_of(n);
    table::fill_masks(n, fs, &mut met[..columns]);
    let all = sets::everyone_of(asked);
    code_search::search_widths(&met[..columns], all, code)
}

// The least code of a small machine.
fn least_of(n: usize, asked: usize, fs: &[u64]) -> Result<Encoding, Refused>
    requires { Small n asked fs.now }
    ensures { result ≡ answer_of n asked (least n (requirements_in fs.now)) }
{
    let mut code = [0usize; rules::MOST_SMALL_BITS];
    let found = search_code(n, asked, fs, &mut code);
    found_as(n, asked, found, &code)
}

// The least code of n states and of the families in fs; more states, or more requirements, than a small machine has are refused 2.
fn encode_small(n: usize, fs: &[u64]) -> Result<Encoding, Refused>
    requires { Drawn n fs.now }
    ensures { result ≡ small_encoded n (requirements_in fs.now) }
{
    if rules::MOST_SMALL < n {
        return code_encoding::uncoded_as(Refusal::Limit);
    }
    let asked = table::count_of(fs);
    if rules::MOST_SMALL_ASKED < asked {
        return code_encoding::uncoded_as(Refusal::Limit);
    }
    least_of(n, asked, fs)
}

// The least code of any listing; one that is not within 01's limits, as no reader gives, is refused 2.
pub fn encode_least(t: rules::Listing) -> Result<Encoding, Refused>
    ensures { result ≡ least_encoded t }
{
    if !code_fair::is_fair(t) {
        return code_encoding::uncoded_as(Refusal::Limit);
    }
    let mut fs = [0u64; code_drawing::ALL_WORDS];
    let words = code_drawing::draw_all(t, &mut fs);
    encode_small(t.head.states, &fs[..words])
}
