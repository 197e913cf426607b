// What is said of a listing and a recorded run: the lines of the replay, whole, in parts, or a piece of the run at a time, or why the listing is refused.
#![tactic(auto)]

ghost use Rattle.std.specs.Prelude.{◌≡◌, ◌≤◌, ltb, length};
ghost use Rattle.rules.specs.Report.{joined_lines};
ghost use Rattle.rules.specs.Replay.{replay_reply};
ghost use Rattle.write_parts.specs.Parts.{begun, added_all};
ghost use Rattle.host_replies.specs.Saying.{saying, saying_part};
ghost use Rattle.run_replay.specs.Places.{course_of};
ghost use Rattle.run_replay.specs.declared.Place.{Place};
ghost use Rattle.host_replay.specs.Replaying.{machines_in, replay_in, printing_piece, piece_end};

use host_replies::Ready;
use host_replies::plans::Wanted;
use rules::{Refusal, Refused};
use run_replay::{Machines, Place};
use write_parts::Part;

// So many bytes of room are always enough: 10,000 steps of 104 bytes, and a refusal of 12.
pub const ROOM: usize = 1040012;

// What a piece of a run prints: how many bytes, and the place that the run has come to.
#[derive(Clone, Copy)]
pub struct Printed {
    pub given: usize,
    pub place: Place,
}

// Both machines of a listing that is read and coded.
pub fn machines(ready: Ready) -> Machines
    ensures { result ≡ machines_in ready }
{
    let code = ready.encoding;
    run_replay::machines_of(ready.listing, code.width, code.bits)
}

// The whole lines of the replay of a run from byte `from` on that fit, added to an empty part.
fn print_from(m: &Machines, run: &[u8], from: usize, out: &mut [u8]) -> Part
    ensures { (result, out.new) ≡ added_all (course_of m.now Place.First run.now).0 (begun from, out.old) }
{
    let ran = run_replay::add_piece(out, write_parts::begin(from), *m, Place::First, run);
    ran.part
}

// Whether the replay of a run is longer than so many bytes. Where that is not plain, it is measured: with those passed over, and no room, a line is left.
fn is_longer(m: &Machines, run: &[u8], len: usize) -> bool
    ensures { result ≡ ltb len (length (joined_lines (course_of m.now Place.First run.now).0)) }
{
    if ROOM <= len {
        return false;
    }
    let mut none = [0u8; 1];
    let measured = print_from(m, run, len, &mut none[..0]);
    measured.full
}

// The whole replay, or 10 where it does not fit.
fn say_whole(ready: Result<Ready, Refused>, run: &[u8], out: &mut [u8]) -> Result<usize, Refused>
    ensures { (result, out.new) ≡ saying (replay_in ready run.now) out.old }
{
    let m = machines(ready?);
    if is_longer(&m, run, out.len()) {
        return Err(Refusal::NoRoom.at(0));
    }
    let part = print_from(&m, run, 0, out);
    Ok(part.given)
}

// What is said of any bytes of a listing and any of a run: how many bytes the replay has, or the refusal and its line.
pub fn say(listing: &[u8], run: &[u8], out: &mut [u8]) -> Result<usize, Refused>
    ensures { (result, out.new) ≡ saying (replay_reply listing.now run.now) out.old }
{
    say_whole(host_replies::prepare(Wanted::Cover, listing), run, out)
}

// The whole lines of the replay that fit, from byte `from` on; none where there is no more, and 10 where the next does not fit.
fn say_from(
    ready: Result<Ready, Refused>,
    run: &[u8],
    from: usize,
    out: &mut [u8],
) -> Result<usize, Refused>
    ensures { (result, out.new) ≡ saying_part (replay_in ready run.now) from out.old }
{
    let m = machines(ready?);
    let part = print_from(&m, run, from, out);
    if part.given == 0 && part.full {
        return Err(Refusal::NoRoom.at(0));
    }
    Ok(part.given)
}

// A part of what is said of any bytes.
pub fn say_part(listing: &[u8], run: &[u8], from: usize, out: &mut [u8]) -> Result<usize, Refused>
    ensures { (result, out.new) ≡ saying_part (replay_reply listing.now run.now) from out.old }
{
    say_from(
        host_replies::prepare(Wanted::Cover, listing),
        run,
        from,
        out,
    )
}

// What a piece of a run prints, from a place in the run on: the whole lines that fit.
pub fn print_piece(m: Machines, place: Place, run: &[u8], out: &mut [u8]) -> Printed
    ensures { ((result, out.new) ≡ printing_piece (course_of m place run.now) out.old) × (result.given ≤ length out.new) }
{
    let ran = run_replay::add_piece(out, write_parts::begin(0), m, place, run);
    Printed {
        given: ran.part.given,
        place: ran.place,
    }
}

// Where the whole lines among some bytes end; behind all of them where there is none.
pub fn piece_end(bytes: &[u8]) -> usize
    ensures value { result ≡ piece_end bytes.now }
    ensures upper_bound { result ≤ length bytes.now }
{
    match bytes.iter().rposition(|&b| b == b'\n') {
        Some(i) => i + 1,
        None => bytes.len(),
    }
}
