// Prints the report of the KISS2 text on standard input, or `NO number line`.
#![tactic(auto)]

use host_replies::plans::Wanted;
use std::io;

fn main(rt: HostRuntime) -> io::Result<()> {
    host_programs::run(Wanted::KissReport, &mut rt.reader(), &mut io::writer(&rt))
}
