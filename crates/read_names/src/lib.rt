// The names of a KISS2 text's states: kept as places in the text, compared, and found.
#![tactic(auto)]

ghost use Rattle.std.specs.Prelude.{◌≡◌};
ghost use Rattle.rules.specs.Text.{same};
ghost use Rattle.rules.specs.Kiss.{number_of};
ghost use Rattle.read_names.specs.Names.{piece_of, names_in, no_names, with_name};

// Where a name stands in the text: from one byte up to another.
#[derive(Clone, Copy)]
pub struct Piece {
    pub start: usize,
    pub end: usize,
}

// The names so far: that of state k at place k.
#[derive(Clone, Copy)]
pub struct Names {
    pub count: usize,
    pub places: [Piece; rules::MOST_STATES],
}

// Whether two runs of bytes are the same.
#[tactic(auto, using(crate::proofs::Same::equal))]
pub fn same_bytes(a: &[u8], b: &[u8]) -> bool
    ensures { result ≡ same a.now b.now }
{
    a == b
}

// The bytes of a piece, as far as the text has them.
pub fn bytes_of(s: &[u8], p: Piece) -> &[u8]
    ensures { result.now ≡ piece_of s.now p }
{
    let start = p.start;
    let end = sets::least(p.end, s.len());
    if end <= start {
        return &s[end..end];
    }
    &s[start..end]
}

// The number of the state that a name names; that of the next state where the name is new.
pub fn number_of(s: &[u8], names: Names, f: &[u8]) -> usize
    ensures { result ≡ number_of (names_in s.now names) f.now }
{
    let n = sets::least(names.count, rules::MOST_STATES);
    for i in 0..n {
        if same_bytes(bytes_of(s, names.places[i]), f) {
            return i;
        }
    }
    n
}

// No names yet.
#[tactic(auto, unfolding(crate::specs::Names::no_names))]
pub fn no_names() -> Names
    ensures { result ≡ no_names }
{
    Names {
        count: 0,
        places: [Piece { start: 0, end: 0 }; rules::MOST_STATES],
    }
}

// The names with one more behind them, if there is room.
#[tactic(auto, unfolding(crate::specs::Names::with_name))]
pub fn with_name(names: Names, p: Piece) -> Names
    ensures { result ≡ with_name names p }
{
    let n = names.count;
    if rules::MOST_STATES <= n {
        return names;
    }
    let mut more = names;
    more.places[n] = p;
    more.count = n + 1;
    more
}
