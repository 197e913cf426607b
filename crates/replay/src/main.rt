// Replays a recorded run: `replay LISTING RUN`, the names of two files. It prints a line for each step, and `NO number line` last where the listing or the run
// is refused. The listing is encoded once, and the run is read in pieces; no buffer is larger than the largest listing.
#![tactic(auto)]

ghost use Rattle.std.specs.Prelude.{◌≡◌, ◌≤◌, length, IfOk, IfSome};

use host_replies::Ready;
use host_replies::plans::Wanted;
use rules::Refused;
use run_replay::{Machines, Place};
use std::io::{self, Read, Write};
use std::process::ExitCode;

const USAGE: &[u8] = b"replay LISTING RUN";

// The bytes of a run that are read at a time. A line that is longer is bad, and what they print always fits the other buffer.
const PIECE: usize = 512;

// How far a run is replayed, and how many bytes behind that are read: they stand at the start of the buffer.
#[derive(Clone, Copy)]
struct Going {
    place: Place,
    held: usize,
}

// The listing, read and coded for its cover, or why it is refused.
fn read_ready<R: Read>(file: &mut R) -> io::Result<Result<Ready, Refused>> {
    let mut listing = [0u8; rules::MOST_BYTES];
    let read = host_programs::fill(file, &mut listing, 0)?;
    let more = host_programs::goes_on(file, read)?;
    Ok(host_prints::prepare(Wanted::Cover, &listing[..read], more))
}

// How many of the bytes read are replayed now: at the end of the run all, else the whole lines.
fn piece_of(bytes: &[u8], filled: usize, last: bool) -> usize
    requires { filled ≤ length bytes.now }
    ensures { result ≤ filled }
{
    if last {
        return filled;
    }
    host_replay::piece_end(&bytes[..filled])
}

// Prints what a piece of a run does: the place that it comes to.
fn print_piece<W: Write>(
    m: &Machines,
    place: Place,
    bytes: &[u8],
    out: &mut [u8],
    output: &mut W,
) -> io::Result<Place> {
    let printed = host_replay::print_piece(*m, place, bytes, out);
    output.write_all(&out[..printed.given])?;
    Ok(printed.place)
}

// Reads as much of a run as the buffer holds, and prints what its whole lines do; at the end of the run, what all that is left does. None where the run ends.
fn print_some<R: Read, W: Write>(
    m: &Machines,
    going: Going,
    run: &mut R,
    bytes: &mut [u8],
    out: &mut [u8],
    output: &mut W,
) -> io::Result<Option<Going>>
    requires { going.held ≤ length bytes.old }
    ensures { IfOk result (λ next. IfSome next (λ g. g.held ≤ length bytes.new)) }
{
    let filled = host_programs::fill(run, bytes, going.held)?;
    let last = filled < bytes.len();
    let end = piece_of(bytes, filled, last);
    let place = print_piece(m, going.place, &bytes[..end], out, output)?;
    if last || matches!(place, Place::Over) {
        return Ok(None);
    }
    let held = host_programs::move_up(bytes, end, filled);
    Ok(Some(Going { place, held }))
}

// Replays a run to its end. A proved loop has to end, and nothing says that a file does: so the turns are counted up to a number that no run reaches.
fn print_run<R: Read, W: Write>(
    m: &Machines,
    run: &mut R,
    bytes: &mut [u8],
    out: &mut [u8],
    output: &mut W,
) -> io::Result<()> {
    let mut going = Going {
        place: Place::First,
        held: 0,
    };
    for _ in 0..u64::MAX {
        let Some(next) = print_some(m, going, run, bytes, out, output)? else {
            break;
        };
        going = next;
    }
    Ok(())
}

// The replay of a run, or why the listing is refused.
fn print_replay<R: Read, W: Write>(
    ready: Result<Ready, Refused>,
    run: &mut R,
    output: &mut W,
) -> io::Result<()> {
    let mut out = [0u8; rules::MOST_BYTES];
    let Ok(coded) = ready else {
        let given = host_prints::print(ready, 0, &mut out);
        return output.write_all(&out[..given]);
    };
    let m = host_replay::machines(coded);
    let mut bytes = [0u8; PIECE];
    print_run(&m, run, &mut bytes, &mut out, output)
}

fn main(rt: HostRuntime) -> io::Result<ExitCode> {
    let Some(mut listing) = host_programs::open_argument(&rt, 1, USAGE) else {
        return Ok(ExitCode::FAILURE);
    };
    let Some(mut run) = host_programs::open_argument(&rt, 2, USAGE) else {
        return Ok(ExitCode::FAILURE);
    };
    let ready = read_ready(&mut listing)?;
    print_replay(ready, &mut run, &mut io::writer(&rt))?;
    Ok(ExitCode::SUCCESS)
}
