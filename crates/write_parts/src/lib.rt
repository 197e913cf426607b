// A part of a text, line by line: what is given already is passed over, whole lines are put into a lent buffer while they fit, and from the first one on
// that does not, nothing is.
#![tactic(auto)]

ghost use Rattle.std.specs.Prelude.{◌≡◌};
ghost use Rattle.write_parts.specs.Parts.{begun, fits, open_for, added};

// How a part stands: how many bytes of the text are still to be passed over, how many the buffer holds, and whether a line did not fit.
#[derive(Clone, Copy)]
pub struct Part {
    pub skip: usize,
    pub given: usize,
    pub full: bool,
}

// A part from byte `from` of the text on, with nothing in it yet.
pub fn begin(from: usize) -> Part
    ensures { result ≡ begun from }
{
    Part {
        skip: from,
        given: 0,
        full: false,
    }
}

// Whether so many bytes more fit behind those given.
fn is_room(len: usize, given: usize, more: usize) -> bool
    ensures { result ≡ fits len given more }
{
    given <= len && more <= len - given
}

// Whether a text of that many bytes at the most goes straight behind those given, into a buffer of that length: so its writer needs no buffer of its own.
pub fn is_open(part: Part, len: usize, most: usize) -> bool
    ensures { result ≡ open_for most len part }
{
    !part.full && part.skip == 0 && is_room(len, part.given, most)
}

// The part with one line more: passed over, put down, or, where it does not fit, left out with all that follow.
pub fn add_line(out: &mut [u8], part: Part, line: &[u8]) -> Part
    ensures { (result, out.new) ≡ added line.now (part, out.old) }
{
    if part.full {
        return part;
    }
    let skip = part.skip;
    let given = part.given;
    if line.len() <= skip {
        return Part {
            skip: skip - line.len(),
            given,
            full: false,
        };
    }
    if !is_room(out.len(), given, line.len() - skip) {
        return Part {
            skip,
            given,
            full: true,
        };
    }
    let end = write_pen::put_bytes(out, given, &line[skip..]);
    Part {
        skip: 0,
        given: end,
        full: false,
    }
}
