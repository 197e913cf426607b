// Pieces of bytes: a line in a listing, a field in a line. One splitter finds the end of either.
#![tactic(auto)]

ghost use Rattle.std.specs.Prelude.{◌≡◌, ◌+◌, length, take, drop};
ghost use Rattle.rules.specs.Text.{fields_of, field_at};
ghost use Rattle.read_pieces.specs.Pieces.{end_of, stands_at};

// The end of the piece that starts at `at`, where pieces are parted by q.
pub fn cut(l: &[u8], at: usize, q: u8) -> usize
    ensures { result ≡ end_of q l.now at }
{
    for i in at..l.len() {
        if l[i] == q {
            return i;
        }
    }
    at.max(l.len())
}

// How many fields a line has: one more than spaces.
pub fn field_count(l: &[u8]) -> usize
    ensures { result ≡ length (fields_of l.now) }
{
    let mut n: usize = 1;
    for &x in l {
        if x == b' ' {
            n += 1;
        }
    }
    n
}

// Field k of a line, from 0; nothing where the line has fewer.
pub fn field(l: &[u8], k: usize) -> &[u8]
    ensures { result.now ≡ field_at l.now k }
{
    let mut at = 0;
    let mut end = cut(l, 0, b' ');
    for _before in 0..k {
        if l.len() <= end {
            return &l[end..];
        }
        at = end + 1;
        end = cut(l, at, b' ');
    }
    &l[at..end]
}

// Whether byte k of a line is there and is q.
#[tactic(auto, unfolding(crate::specs::Pieces::stands_at))]
pub fn stands_at(l: &[u8], k: usize, q: u8) -> bool
    ensures { result ≡ stands_at q k l.now }
{
    k < l.len() && l[k] == q
}

// The first k bytes of a line; all of them where it has fewer.
pub fn first_of(l: &[u8], k: usize) -> &[u8]
    ensures { result.now ≡ take k l.now }
{
    if l.len() < k {
        return l;
    }
    &l[0..k]
}

// What stands behind byte k of a line; nothing where it has no byte k.
pub fn behind(l: &[u8], k: usize) -> &[u8]
    ensures { result.now ≡ drop (k + 1) l.now }
{
    let n = l.len();
    if n <= k {
        return &l[n..];
    }
    let at = k + 1;
    &l[at..]
}
