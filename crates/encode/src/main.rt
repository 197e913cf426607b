// Prints the report of the listing on standard input, or `NO number line`.
#![tactic(auto)]

use host_replies::plans::Wanted;
use std::io;

fn main(rt: HostRuntime) -> io::Result<()> {
    host_programs::run(Wanted::Report, &mut rt.reader(), &mut io::writer(&rt))
}
