// Prints the listing that the KISS2 text on standard input becomes, or `NO number line`.
#![tactic(auto)]

use host_replies::plans::Wanted;
use std::io;

fn main(rt: HostRuntime) -> io::Result<()> {
    host_programs::run(Wanted::KissListing, &mut rt.reader(), &mut io::writer(&rt))
}
