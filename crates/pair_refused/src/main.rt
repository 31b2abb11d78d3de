// The program `pair` on a file that is refused, with its status: the gate runs a program on one input. The file has one byte more than a site
// file may have (sites/refused/long.site).
#![tactic(auto)]

use piped::answer_input;
use std::io;
use std::process::ExitCode;

fn main(rt: HostRuntime) -> io::Result<ExitCode> {
    answer_input(&mut rt.reader(), &mut io::writer(&rt))
}
