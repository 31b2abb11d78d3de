// What the replay programs share: numbers that stand in their input, and lines on what differs. A read that fails counts as the end of
// the input, and all bytes of a number past its end are 0.
#![tactic(auto)]

ghost use Rattle.replays.specs.Input.{Gives, Reads, Sized, amount_of, length_of};
ghost use Rattle.replays.specs.Told.{told};
ghost use Rattle.std.specs.Int.{from_le_bytes, w16, w32};
ghost use Rattle.std.specs.Io.KnownBytes.{Appends, Consumes};
ghost use Rattle.std.specs.Prelude.{◌≡◌, ◌+◌, ◌≤◌, OnOk, length, take, drop};

use std::io;
use std::io::{Read, Write};

// The most entries of a list.
pub const ENTRIES: usize = 2112;

// Reads until the buffer is full, the input ends or a read fails: how many bytes came. Behind them it writes nothing itself.
#[tactic(auto, using(crate::proofs::Reading::takes_on))]
pub fn read_full<R: Read>(from: &mut R, buffer: &mut [u8]) -> usize
    ensures count { result ≤ length buffer.new }
    ensures bytes { Consumes (R.remaining from.old) (R.remaining from.new) (take result buffer.new) }
{
    let mut done = 0;
    while done < buffer.len() {
        let more = read_on(from, buffer, done);
        if more == 0 {
            break;
        }
        done += more;
    }
    done
}

// One read, to behind what is there: how many bytes came. None come where it fails.
fn read_on<R: Read>(from: &mut R, buffer: &mut [u8], done: usize) -> usize
    requires { done ≤ length buffer.old }
    ensures count { done + result ≤ length buffer.new }
    ensures kept { take done buffer.new ≡ take done buffer.old }
    ensures bytes { Consumes (R.remaining from.old) (R.remaining from.new) (take result (drop done buffer.new)) }
{
    from.read(&mut buffer[done..]).unwrap_or(0)
}

// The bytes that come next. What a reader may have left behind its last byte is cleared.
pub fn bytes<R: Read, const N: usize>(from: &mut R) -> [u8; N]
    ensures { Gives (R.remaining from.old) (R.remaining from.new) result }
{
    let mut all = [0; N];
    let list = &mut all[..];
    let done = read_full(from, list);
    list[done..].fill(0);
    all
}

// A number of two bytes, the low one first. The generic reader is `bytes`; std has its conversions width by width.
pub fn number<R: Read>(from: &mut R) -> u16
    ensures { Reads (R.remaining from.old) (R.remaining from.new) 2 (from_le_bytes w16) result }
{
    u16::from_le_bytes(bytes(from))
}

// A number of four bytes, the low one first.
pub fn long_number<R: Read>(from: &mut R) -> u32
    ensures { Reads (R.remaining from.old) (R.remaining from.new) 4 (from_le_bytes w32) result }
{
    u32::from_le_bytes(bytes(from))
}

// A signed amount of eight bytes: its distance from zero, and in the highest bit whether it lies below.
pub fn amount<R: Read>(from: &mut R) -> i64
    ensures { Reads (R.remaining from.old) (R.remaining from.new) 8 amount_of result }
{
    let x = u64::from_le_bytes(bytes(from));
    let size = (x % 9223372036854775808) as i64;
    if x < 9223372036854775808 { size } else { -size }
}

// How long a list is.
pub fn length<R: Read>(from: &mut R) -> usize
    ensures most { result ≤ 2112 }
    ensures value { Reads (R.remaining from.old) (R.remaining from.new) 2 length_of result }
{
    usize::from(number(from)).min(ENTRIES)
}

// How long a file or a list of bytes is that stands next: four bytes, the low one first; none where the input ends before them.
pub fn file_size<R: Read>(from: &mut R) -> Option<usize>
    ensures { Sized (R.remaining from.old) (R.remaining from.new) result }
{
    let mut head = [0; 4];
    let list = &mut head[..];
    if read_full(from, list) < 4 {
        return None;
    }
    Some(u32::from_le_bytes(head) as usize)
}

// Writes what differs in the record at a place: a line for each, with its number, from 1.
#[tactic(auto, using(crate::proofs::Telling::tells))]
pub fn tell<W: Write>(out: &mut W, place: u32, same: &[bool]) -> io::Result<()>
    ensures { OnOk result (Appends (W.contents out.old) (W.contents out.new) (told place 1 same.now)) }
{
    for (k, same) in same.iter().enumerate() {
        if !same {
            writeln!(out, "{place} {}", k + 1)?;
        }
    }
    Ok(())
}
