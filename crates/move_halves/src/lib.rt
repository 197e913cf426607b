// A family of requirements, which have all their members but one in common: its halves, and what a move changes of it in the gain table.
#![tactic(auto)]

ghost use Rattle.std.specs.Prelude.{◌≡◌, true, ◌||◌, not, cond, eqb, leb};
ghost use Rattle.sets.specs.Sets.{size};
ghost use Rattle.move_halves.specs.Halves.{signed, side, worth, halved, near_at, swayed, looks_by, looks_of};

// A half of a family: the members in common, those of them that must change, and of the states outside those that are right in it and the others.
#[derive(Clone, Copy)]
pub struct Half {
    pub all: u64,
    pub side: u64,
    pub right: u64,
    pub rest: u64,
}

impl Half {
    // The other half, of which these must change: what is right in the one is not right in the other.
    pub fn turned(self, side: u64) -> Half
        ensures { (result.all ≡ self.all) × (result.side ≡ side) × (result.right ≡ self.rest) × (result.rest ≡ self.right) }
    {
        Half {
            side,
            right: self.rest,
            rest: self.right,
            ..self
        }
    }
}

// How many states there are, if they count: they are counted only then.
fn states_of(yes: bool, m: u64) -> usize
    ensures { result ≡ cond yes (size m) 0 }
{
    if yes { sets::size_of(m) as usize } else { 0 }
}

// x to be put on, or to be taken off, modulo 2 ^ 32.
fn signed_of(on: bool, x: u32) -> u32
    ensures { result ≡ signed on x }
{
    if on { x } else { x.wrapping_neg() }
}

// Of the members in common, those that must change for first block 0 and second block 1.
pub fn side_of(all: u64, flip: u64, b: u64) -> u64
    ensures { result ≡ side all flip b }
{
    all & (b ^ flip)
}

// The requirements that a half with these states right is worth.
pub fn worth_of(out: u64, right: u64) -> u32
    ensures { result ≡ worth out right }
{
    if out == 0 { 1 } else { sets::size_of(right) }
}

// The shares of a half that is worth w, put on the table or taken off.
pub fn put_half(on: bool, w: u32, half: Half, t: &mut [u32])
    ensures { t.new ≡ halved on w half.all half.side half.right half.rest t.old }
{
    if half.side == 0 {
        move_table::raise(t, half.all, signed_of(!on, w));
        move_table::raise(t, half.right, signed_of(!on, 1));
        move_table::raise(t, half.rest, signed_of(on, 1));
    } else if sets::few(half.side) {
        move_table::raise(t, half.side, signed_of(on, w));
    }
}

// The shares of a half, by the states outside, which are counted only where it has shares.
fn put_worth(on: bool, out: u64, half: Half, t: &mut [u32])
    ensures { t.new ≡ halved on (worth out half.right) half.all half.side half.right half.rest t.old }
{
    if sets::few(half.side) {
        put_half(on, worth_of(out, half.right), half, t);
    }
}

// Whether at most one must change, one way round or the other.
fn near_of(x: u64, y: u64) -> bool
    ensures { result ≡ (leb (size x) 1 || leb (size y) 1) }
{
    sets::few(x) || sets::few(y)
}

// Whether a requirement that is right the one way round is looked at: at most one of x must change that way, or none of y the other way.
fn seen_of(x: u64, y: u64) -> bool
    ensures { result ≡ (leb (size x) 1 || eqb (size y) 0) }
{
    y == 0 || sets::few(x)
}

// The looks at a family, in the move of a member in common, where x and y must change without it.
fn looks_by(out: u64, x: u64, y: u64, right: u64, rest: u64) -> usize
    ensures { result ≡ looks_by out (size x) (size y) right rest }
{
    if out == 0 {
        return near_of(x, y) as usize;
    }
    let one = states_of(seen_of(x, y), right);
    let other = states_of(seen_of(y, x), rest);
    one + other
}

// The move of a member in common: the half whose side it leaves is put on, the other taken off. Both come with the sides that they have without it.
fn move_in(on: bool, out: u64, half: Half, other: Half, t: &mut [u32]) -> usize
    ensures { (result ≡ looks_by out (size half.side) (size other.side) half.right half.rest) × (t.new ≡ halved (not on) (worth out other.right) other.all other.side other.right other.rest (halved on (worth out half.right) half.all half.side half.right half.rest t.old)) }
{
    put_worth(on, out, half, t);
    put_worth(!on, out, other, t);
    looks_by(out, half.side, other.side, half.right, half.rest)
}

// The move of a state outside: its own requirement goes from the one half to the other.
fn move_out(on: bool, all: u64, x: u64, y: u64, own: u64, t: &mut [u32])
    ensures { t.new ≡ halved (not on) 1 all y own 0 (halved on 1 all x own 0 t.old) }
{
    let half = Half {
        all,
        side: x,
        right: own,
        rest: 0,
    };
    put_half(on, 1, half, t);
    put_half(!on, 1, Half { side: y, ..half }, t);
}

// 1 if the move of s at the bit b can touch a family, and else 0: it has the state, and without it at most one must change, one way round or the other.
// By numbers alone, so that a loop over many families has no branch to guess.
pub fn mark_of(all: u64, flip: u64, out: u64, b: u64, s: usize) -> u64
    ensures { result ≡ cond (near_at all flip out b s) 1 0 }
{
    let own = sets::flipped(0, s);
    let others = families::without_of(all, own);
    let x = side_of(others, flip, b);
    let near = (sets::few(x) as u64) | (sets::few(others ^ x) as u64);
    near & (((all | out) & own != 0) as u64)
}

// The move of s at the bit b, for one family: its looks, and the table with its changes, the moved state's own change by half.
pub fn move_family(all: u64, flip: u64, out: u64, b: u64, s: usize, t: &mut [u32]) -> usize
    ensures { (result ≡ looks_of all flip out b s) × (t.new ≡ swayed all flip out b s t.old) }
{
    let own = sets::flipped(0, s);
    let others = families::without_of(all, own);
    let x = side_of(others, flip, b);
    let y = others ^ x;
    if sets::member(all, s) {
        let o = families::without_of(out, all);
        let right = o & b;
        let half = Half {
            all,
            side: x,
            right,
            rest: o ^ right,
        };
        return move_in(sets::member(b ^ flip, s), out, half, half.turned(y), t);
    }
    if !sets::member(out, s) {
        return 0;
    }
    move_out(!sets::member(b, s), all, x, y, own, t);
    near_of(x, y) as usize
}
