// Sets of states as masks of 64 digits: state s is a member where digit s is 1.
#![tactic(auto)]

ghost use Rattle.std.specs.Prelude.{◌≡◌, min, ◌<◌, ◌≤◌, eqb, leb};
ghost use Rattle.std.specs.Int.Count.{count_trailing_zeros};
ghost use Rattle.sets.specs.Sets.{has, flip, everyone, size, without_lowest};

// Whether state s is a member of m; a number past the mask's width is no member.
pub fn member(m: u64, s: usize) -> bool
    ensures { result ≡ eqb (has m s) 1 }
{
    s < 64 && (m >> s) % 2 == 1
}

// m with state s flipped; a number past the mask's width changes nothing.
pub fn flipped(m: u64, s: usize) -> u64
    ensures { (s < 64 → result ≡ flip m s) × (64 ≤ s → result ≡ m) }
{
    if 64 <= s {
        return m;
    }
    m ^ (1 << s)
}

// How many members m has.
pub fn size_of(m: u64) -> u32
    ensures { result ≡ size m }
{
    m.count_ones()
}

// Whether m has at most one member.
pub fn few(m: u64) -> bool
    ensures { result ≡ leb (size m) 1 }
{
    size_of(m) <= 1
}

// The lowest member of m, or 64 where it has none.
pub fn lowest(m: u64) -> usize
    ensures { result ≡ count_trailing_zeros 64 m }
{
    m.trailing_zeros() as usize
}

// m without its lowest member; the empty set stays as it is.
pub fn without_lowest(m: u64) -> u64
    ensures { result ≡ without_lowest m }
{
    if m == 0 {
        return 0;
    }
    m & (m - 1)
}

// The set of all states below n; of more than 64 states the first 64.
pub fn everyone_of(n: usize) -> u64
    ensures { result ≡ everyone (min n 64) }
{
    if n < 64 {
        return (1 << n) - 1;
    }
    u64::MAX
}

// The lesser of two numbers.
pub fn least(a: usize, b: usize) -> usize
    ensures { result ≡ min a b }
{
    a.min(b)
}
