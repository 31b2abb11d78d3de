// What the program `pair` does: it reads the site file that a reader gives, plans it, writes the answer, and says with which status to end.
#![tactic(auto)]

ghost use Rattle.std.specs.Prelude.{◌≡◌, ◌+◌, ◌<◌, ◌≤◌, length, take, drop, IfOk, OnOk, IfSome};
ghost use Rattle.std.specs.Io.KnownBytes.{Appends, Consumes, IsAtEnd};
ghost use Rattle.std.specs.Process.{exit_status};
ghost use Rattle.sites.specs.Answered.{answered};
ghost use Rattle.piped.specs.Status.{status, status_of};
ghost use Rattle.piped.specs.Input.{Front};

use sites::print_site;
use std::io;
use std::io::{Read, Write};
use std::process::ExitCode;

// One byte more than a site file may have, so that a longer one is seen to be LONG.
const ROOM: usize = 65537;

// One read, to behind what is there: how many bytes came. None come only at the input's end.
fn read_on<R: Read>(from: &mut R, file: &mut [u8], size: usize) -> io::Result<usize>
    requires { size < length file.old }
    ensures count { IfOk result (λ more. size + more ≤ length file.new) }
    ensures kept { take size file.new ≡ take size file.old }
    ensures bytes { IfOk result (λ more. Consumes (R.remaining from.old) (R.remaining from.new) (take more (drop size file.new))) }
    ensures end { IfOk result (λ more. more ≡ 0 → IsAtEnd (R.remaining from.new)) }
{
    from.read(&mut file[size..])
}

// Reads to the input's end or until the buffer is full: how many bytes came.
#[tactic(auto, using(crate::proofs::InputLaws::reads))]
fn read_input<R: Read>(from: &mut R, file: &mut [u8]) -> io::Result<usize>
    ensures within { IfOk result (λ size. size ≤ length file.new) }
    ensures bytes { IfOk result (λ size. Front (R.remaining from.old) (length file.old) (take size file.new)) }
{
    let mut size = 0;
    while size < file.len() {
        let more = read_on(from, file, size)?;
        if more == 0 {
            return Ok(size);
        }
        size += more;
    }
    Ok(size)
}

// 0 for DONE, 3 for every other answer. 1 is the status of a read or a write that fails.
fn ending(done: bool) -> ExitCode
    ensures { exit_status result ≡ status_of done }
{
    ExitCode::from(if done { 0 } else { 3 })
}

// Writes the answer of a file. One of 32 pairs has at most 608 bytes, so the buffer cuts none.
fn answer<W: Write>(file: &[u8], out: &mut W) -> io::Result<ExitCode>
    ensures text { OnOk result (Appends (W.contents out.old) (W.contents out.new) (take 4096 (answered file.now))) }
    ensures status { IfOk result (λ e. exit_status e ≡ status file.now) }
{
    let mut text = [0u8; 4096];
    let printed = print_site(file, &mut text);
    out.write_all(&text[..printed.size])?;
    Ok(ending(printed.done))
}

// Answers the file that a reader gives. Where a read or a write fails there is no answer: a file that was read in part is not planned.
pub fn answer_input<R: Read, W: Write>(from: &mut R, out: &mut W) -> io::Result<ExitCode>
    ensures text { OnOk result (IfSome (R.remaining from.old) (λ file. Appends (W.contents out.old) (W.contents out.new) (take 4096 (answered file)))) }
    ensures status { IfOk result (λ e. IfSome (R.remaining from.old) (λ file. exit_status e ≡ status file)) }
{
    let mut file = [0u8; ROOM];
    let size = read_input(from, &mut file)?;
    answer(&file[..size], out)
}

#[cfg(test)]
mod tests;
