// Plans the site file that standard input holds, prints the answer, and ends with status 0 where it is DONE and 3 where it is another. A read
// or a write that fails ends the program with its error and status 1.
#![tactic(auto)]

use piped::answer_input;
use std::io;
use std::process::ExitCode;

fn main(rt: HostRuntime) -> io::Result<ExitCode> {
    answer_input(&mut rt.reader(), &mut io::writer(&rt))
}
