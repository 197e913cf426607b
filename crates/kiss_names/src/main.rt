// Prints the names of the states of the KISS2 text on standard input, or `NO number line`.
#![tactic(auto)]

use std::io;

fn main(rt: HostRuntime) -> io::Result<()> {
    host_programs::run_names(&mut rt.reader(), &mut io::writer(&rt))
}
