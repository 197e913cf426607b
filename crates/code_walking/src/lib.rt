// The requirements of some families one after the other, in their order: as an iterator that draws up each as it comes to it, and as a place in the walk, what
// stands there, and the place behind it.
#![tactic(auto)]

ghost use Rattle.std.specs.Prelude.{◌≡◌, not, ◌&&◌, ◌+◌, ◌≤◌, ltb, eqb, length, ◌∷◌};
ghost use Rattle.families.specs.Families.{requirements_in};
ghost use Rattle.code_walking.specs.Walking.{entered, here, ahead, left, next};

use rules::Requirement;

// Where a walk stands: at the family whose first word has this place, before those of its states outside that are still to come. A family that has no
// state outside is one requirement.
#[derive(Clone, Copy)]
pub struct Walk {
    pub at: usize,
    pub rest: u64,
}

// The requirements of some families that are still to come.
#[derive(Drop)]
pub struct Requirements<'a> {
    families: &'a [u64],
    walk: Walk,
}

impl<'a> Requirements<'a> {
    // All requirements of the families.
    pub fn new(families: &'a [u64]) -> Requirements<'a>
        ensures { left result ≡ requirements_in families.now }
    {
        Requirements {
            families,
            walk: enter(families, 0),
        }
    }
}

impl<'a> Iterator for Requirements<'a> {
    ghost use Rattle.std.specs.Iterator.{YieldsFirst, item_count};

    type Item = Requirement;

    ghost next_gives = { YieldsFirst left };

    ghost remaining = { item_count left };

    fn next(&mut self) -> Option<Requirement> {
        if is_over(self.families, self.walk) {
            return None;
        }
        let first = requirement_of(self.families, self.walk);
        self.walk = behind(self.families, self.walk);
        Some(first)
    }
}

// Whether the walk is over: no whole family stands from there on.
pub fn is_over(fs: &[u64], w: Walk) -> bool
    ensures { result ≡ ltb (length fs.now) (w.at + 3) }
{
    fs.len() < 3 || fs.len() - 3 < w.at
}

// Whether a family with these states outside and these members in common asks for nothing: it has states outside, and all of them are members.
fn asks_none(out: u64, rest: u64) -> bool
    ensures { result ≡ (eqb rest 0 && not (eqb out 0)) }
{
    rest == 0 && out != 0
}

// The walk at the first requirement from that word on.
pub fn enter(fs: &[u64], from: usize) -> Walk
    ensures { result ≡ entered fs.now from }
{
    if fs.len() < 3 {
        return Walk { at: from, rest: 0 };
    }
    let last = fs.len() - 3;
    // Not a `for`: where no family asks for anything, the answer is the place at which the loop stops.
    let mut at = from;
    while at <= last {
        let rest = families::without_of(fs[at + 2], fs[at]);
        if !asks_none(fs[at + 2], rest) {
            return Walk { at, rest };
        }
        at += 3;
    }
    Walk { at, rest: 0 }
}

// The requirement where the walk stands, in a family that is there.
fn requirement_of(fs: &[u64], w: Walk) -> Requirement
    requires { w.at + 3 ≤ length fs.now }
    ensures { result ≡ here fs.now w }
{
    let first = families::without_of(fs[w.at], fs[w.at + 1]);
    let second = fs[w.at] & fs[w.at + 1];
    if w.rest == 0 {
        return Requirement { first, second };
    }
    Requirement {
        first,
        second: second | (1 << sets::lowest(w.rest)),
    }
}

// The walk one requirement behind a place in a family that is there.
fn behind(fs: &[u64], w: Walk) -> Walk
    requires { w.at + 3 ≤ length fs.now }
    ensures place { result ≡ next fs.now w }
    ensures behind { ahead fs.now w ≡ here fs.now w ∷ ahead fs.now result }
{
    let rest = sets::without_lowest(w.rest);
    if rest == 0 {
        return enter(fs, w.at + 3);
    }
    Walk { at: w.at, rest }
}

// The requirement where the walk stands; where it is over, one without members.
pub fn requirement(fs: &[u64], w: Walk) -> Requirement
    ensures { result ≡ here fs.now w }
{
    if is_over(fs, w) {
        return Requirement {
            first: 0,
            second: 0,
        };
    }
    requirement_of(fs, w)
}

// The walk one requirement further; where it is over it stays.
pub fn step(fs: &[u64], w: Walk) -> Walk
    ensures { result ≡ next fs.now w }
{
    if is_over(fs, w) {
        return w;
    }
    behind(fs, w)
}
