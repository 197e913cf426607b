// Checks codes and a cover from elsewhere: `check_cover LISTING CODES COVER`, the names of three files. It prints `OK`, `UN number`, `AT state input`, or
// `NO number line` where one of them is refused. The cover is read in pieces; no buffer is larger than the largest listing.
#![tactic(auto)]

use judge_check::{Begun, Checked};
use judge_reading::Reader;
use judge_search::{FIRES_WORDS, SAYS_WORDS};
use rules::Refused;
use std::io::{self, Read, Write};
use std::process::ExitCode;

const USAGE: &[u8] = b"check_cover LISTING CODES COVER";

// Room for every line that is printed.
const ROOM: usize = 32;

// The listing and the codes. All lines that codes can have are shorter than the buffer, so what stands behind that much of them cannot change what they are.
fn read_begun<R: Read>(listing: &mut R, codes: &mut R) -> io::Result<Result<Begun, Refused>> {
    let mut text = [0u8; rules::MOST_BYTES];
    let read = host_programs::fill(listing, &mut text, 0)?;
    let more = host_programs::goes_on(listing, read)?;
    let mut lines = [0u8; rules::MOST_BYTES];
    let length = host_programs::fill(codes, &mut lines, 0)?;
    Ok(host_check::begin(&text[..read], more, &lines[..length]))
}

// Reads a cover to its end, or to the first line that is refused: as much as the buffer holds at a time, and the rows of its whole lines. What stands behind
// them is moved to the buffer's start. A line that fills the buffer is longer than any good one, and is read no further.
// A proved loop has to end, and nothing says that a file does: so the turns are counted up to a number that no cover reaches.
fn read_cover<R: Read>(
    q: Reader,
    cover: &mut R,
    bytes: &mut [u8],
    fires: &mut [u64; FIRES_WORDS],
    says: &mut [u64; SAYS_WORDS],
) -> io::Result<Result<(), Refused>> {
    let mut reached = judge_reading::start();
    let mut held: usize = 0;
    for _ in 0..u64::MAX {
        let filled = host_programs::fill(cover, bytes, held)?;
        let piece = judge_reading::read_piece(q, reached, &bytes[..filled], fires, says);
        reached = piece.reached;
        held = host_programs::move_up(bytes, piece.taken, filled);
        if reached.is_err() || filled < bytes.len() || piece.taken == 0 {
            break;
        }
    }
    Ok(judge_reading::close(q, reached, &bytes[..held]))
}

// What is found of a cover, of a listing and codes that are read.
fn check_cover<R: Read>(begun: Begun, cover: &mut R) -> io::Result<Result<Checked, Refused>> {
    let mut fires = [0u64; FIRES_WORDS];
    let mut says = [0u64; SAYS_WORDS];
    judge_rows::put_listing(begun.listing, begun.codes.table, &mut fires, &mut says);
    let q = judge_check::reader_of(begun.listing.head, begun.codes);
    let mut bytes = [0u8; rules::MOST_BYTES];
    let verdict = read_cover(q, cover, &mut bytes, &mut fires, &mut says)?;
    Ok(judge_check::finish(begun, verdict, &fires, &says))
}

// What is found of three files.
fn check_files<R: Read>(
    listing: &mut R,
    codes: &mut R,
    cover: &mut R,
) -> io::Result<Result<Checked, Refused>> {
    match read_begun(listing, codes)? {
        Ok(begun) => check_cover(begun, cover),
        Err(why) => Ok(Err(why)),
    }
}

fn main(rt: HostRuntime) -> io::Result<ExitCode> {
    let Some(mut listing) = host_programs::open_argument(&rt, 1, USAGE) else {
        return Ok(ExitCode::FAILURE);
    };
    let Some(mut codes) = host_programs::open_argument(&rt, 2, USAGE) else {
        return Ok(ExitCode::FAILURE);
    };
    let Some(mut cover) = host_programs::open_argument(&rt, 3, USAGE) else {
        return Ok(ExitCode::FAILURE);
    };
    let found = check_files(&mut listing, &mut codes, &mut cover)?;
    let mut out = [0u8; ROOM];
    let written = host_check::put_checked(&mut out, found);
    let end = sets::least(written, ROOM);
    io::writer(&rt).write_all(&out[..end])?;
    Ok(ExitCode::SUCCESS)
}
