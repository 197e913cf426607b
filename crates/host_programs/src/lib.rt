// What programs do: most read a listing from standard input, and print what is wanted of it, in parts, on standard output; some read the files that their
// arguments name, in pieces. No buffer is larger than the largest listing.
#![tactic(auto)]

ghost use Rattle.std.specs.Prelude.{◌≡◌, ◌≤◌, ◌<◌, ◌^◌, ◌&&◌, leb, ltb, length, take, IfOk, IfSome, OnOk, OnErr};
ghost use Rattle.std.specs.Io.{StartsWith, appended_bytes};
ghost use Rattle.std.specs.Io.KnownBytes.{Appends, Consumes, IsAtEnd};
ghost use Rattle.rules.specs.Limits.{most_bytes};
ghost use Rattle.rules.specs.Answers.{printed};
ghost use Rattle.host_replies.specs.Ready.{reply_of};
ghost use Rattle.host_programs.specs.Moving.{moved_count, moved_up};
ghost use Rattle.host_programs.specs.Printed.{answer_to, names_answer, parts_of};

use host_replies::Ready;
use host_replies::plans::Wanted;
use rules::Refused;
use std::env::FillError;
use std::fs;
use std::io::{self, Read, Write};
use std::rt::{Env, Files};

// Room for the longest name that the system opens.
const NAME_ROOM: usize = 4096;

// Why an argument cannot be had.
fn reason_of(e: FillError) -> &'static str {
    match e {
        FillError::NotPresent => "Invalid argument",
        FillError::TooLong => "File name too long",
    }
}

// Tells why an argument cannot be had, behind what arguments there are to be.
fn tell<R: Eprint>(rt: &R, usage: &[u8], reason: &str) {
    match str::from_utf8(usage) {
        Ok(words) => {
            let _ = eprintln!(rt; "{words}: {reason}");
        }
        Err(_) => {
            let _ = eprintln!(rt; "{reason}");
        }
    }
}

// The file of that name, opened for reading; none where it cannot be, which is told on standard error. A name is text.
fn open_named<R: Files + Eprint>(rt: &R, name: &[u8], usage: &[u8]) -> Option<R::File> {
    let Ok(path) = str::from_utf8(name) else {
        tell(rt, usage, "the name of a file is not UTF-8");
        return None;
    };
    match fs::open(rt, path) {
        Ok(file) => Some(file),
        Err(e) => {
            let _ = eprintln!(rt; "{path}: {e}");
            None
        }
    }
}

// The file that an argument names, opened for reading; none where it cannot be, which is told on standard error: the file, or what arguments there are to be.
pub fn open_argument<R: Env + Files + Eprint>(rt: &R, i: usize, usage: &[u8]) -> Option<R::File> {
    let mut name = [0u8; NAME_ROOM];
    match rt.arg(i, &mut name) {
        Ok(length) => open_named(rt, &name[..length], usage),
        Err(e) => {
            tell(rt, usage, reason_of(e));
            None
        }
    }
}

// Reads behind the bytes that are held, until the buffer is full or the input ends: how many bytes it then has. Where a read fails, which is the only error, the
// bytes that were held stand as they did. A read that a signal interrupts counts as one that failed.
pub fn fill<R: Read>(input: &mut R, bytes: &mut [u8], held: usize) -> io::Result<usize>
    ensures within { IfOk result (λ filled. filled ≤ length bytes.new) }
    ensures held { IfOk result (λ filled. StartsWith (take filled bytes.new) (take held bytes.old)) }
    ensures bytes { IfOk result (λ filled. Consumes (R.remaining input.old) (R.remaining input.new)
        (appended_bytes (take held bytes.old) (take filled bytes.new))) }
    ensures end { IfOk result (λ filled. filled < length bytes.new → IsAtEnd (R.remaining input.new)) }
    ensures failed { OnErr result (StartsWith bytes.new (take held bytes.old)) }
{
    let mut filled = held.min(bytes.len());
    while filled < bytes.len() {
        let read = input.read(&mut bytes[filled..])?;
        if read == 0 {
            break;
        }
        filled += read;
    }
    Ok(filled)
}

// The bytes from one place to another moved to the start: how many they are.
pub fn move_up(bytes: &mut [u8], from: usize, end: usize) -> usize
    ensures count { result ≡ moved_count from end bytes.old }
    ensures bytes { bytes.new ≡ moved_up from end bytes.old }
    ensures within { result ≤ length bytes.new }
{
    let stop = end.min(bytes.len());
    let count = stop.saturating_sub(from);
    bytes.copy_within(stop - count..stop, 0);
    count
}

// Whether a listing goes on behind the bytes read: where they fill the buffer, one more is tried.
pub fn goes_on<R: Read>(input: &mut R, read: usize) -> io::Result<bool>
    ensures { IfOk result (λ more. IfSome (R.remaining input.old) (λ left. more ≡ (leb most_bytes read && ltb 0 (length left)))) }
{
    if read < rules::MOST_BYTES {
        return Ok(false);
    }
    let mut one = [0u8; 1];
    Ok(fill(input, &mut one, 0)? == 1)
}

// Prints what is ready, one part after the other, until there is no more or it cannot be written.
fn print_all<W: Write>(
    ready: Result<Ready, Refused>,
    part: &mut [u8],
    output: &mut W,
) -> io::Result<()>
    requires { length (printed (reply_of ready)) < 2 ^ 64 }
    ensures { OnOk result (Appends (W.contents output.old) (W.contents output.new) (parts_of (length part.old) ready)) }
{
    let mut from: usize = 0;
    loop {
        let given = host_prints::print(ready, from, part);
        if given == 0 {
            return Ok(());
        }
        output.write_all(&part[..given])?;
        from += given;
    }
}

// The program that prints what is wanted of the listing on its input, or `NO number line`.
pub fn run<R: Read, W: Write>(wanted: Wanted, input: &mut R, output: &mut W) -> io::Result<()>
    ensures { OnOk result (IfSome (R.remaining input.old) (λ bytes. Appends (W.contents output.old) (W.contents output.new) (answer_to wanted bytes))) }
{
    let mut listing = [0u8; rules::MOST_BYTES];
    let read = fill(input, &mut listing, 0)?;
    let more = goes_on(input, read)?;
    let ready = host_prints::prepare(wanted, &listing[..read], more);
    let mut part = [0u8; rules::MOST_BYTES];
    print_all(ready, &mut part, output)
}

// The program that prints the names of the states of the KISS2 text on its input, or `NO number line`.
pub fn run_names<R: Read, W: Write>(input: &mut R, output: &mut W) -> io::Result<()>
    ensures { OnOk result (IfSome (R.remaining input.old) (λ bytes. Appends (W.contents output.old) (W.contents output.new) (names_answer bytes))) }
{
    let mut text = [0u8; rules::MOST_BYTES];
    let read = fill(input, &mut text, 0)?;
    let more = goes_on(input, read)?;
    let mut out = [0u8; rules::MOST_BYTES];
    let written = host_names::print_names(&mut out, &text[..read], more);
    output.write_all(&out[..written.min(rules::MOST_BYTES)])
}
