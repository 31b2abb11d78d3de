// Reads each site file of standard input and writes what it reads as, one to a line: 0, n, flag, budget and how many edges, or the
// refusal's number and place; then = where the three lent lists are what they must be over their whole length, and ! where not.
// The input and the lines that must come out are made by compare/site-files, which knows document 01 and nothing of this code.
#![tactic(auto)]

ghost use Rattle.std.specs.Prelude.{◌<◌};

use records::reader::Reader;
use records::site::{Head, Refused};
use records::whole::read_site;
use replays::{file_size, read_full};
use std::io;
use std::io::{Read, Write};

const ENTRIES: usize = 2048;

// At most so many files are read: this program's own limit.
const FILES: u32 = 100000;

// A file, what its edges must be, and the three lists that are lent to the reader. Fixed: with a heap the program could fail.
#[derive(Drop)]
struct Room {
    file: [u8; 65540],
    expected: [u8; 16384],
    first: [u16; ENTRIES],
    second: [u16; ENTRIES],
    weight: [i64; ENTRIES],
}

// A write that fails is passed over.
fn say<W: Write>(out: &mut W, x: u64) {
    let _ = write!(out, "{x}");
    let _ = out.write_all(b" ");
}

impl Room {
    // Edge k is the one that stands in `expected`.
    fn edge_is(&self, k: usize) -> bool
        requires { k < 2048 }
    {
        let expected = Reader {
            file: &self.expected,
            place: 8 * k,
        };
        self.first.get(k) == Some(&expected.word(0))
            && self.second.get(k) == Some(&expected.word(2))
            && self.weight.get(k) == Some(&expected.signed(4))
    }

    fn edges_are(&self) -> bool {
        (0..ENTRIES).all(|k| self.edge_is(k))
    }

    // Reads the file of so many bytes.
    fn read(&mut self, size: usize) -> Result<Head, Refused> {
        let size = size.min(self.file.len());
        read_site(
            &self.file[..size],
            &mut self.first,
            &mut self.second,
            &mut self.weight,
        )
    }
}

fn tell<W: Write>(out: &mut W, site: Result<Head, Refused>, same: bool) {
    match site {
        Ok(h) => {
            say(out, 0);
            say(out, u64::from(h.nodes));
            say(out, u64::from(h.flag));
            say(out, u64::from(h.budget));
            say(out, u64::from(h.edges));
        }
        Err(refused) => {
            say(out, u64::from(refused.what.number()));
            say(out, refused.place as u64);
        }
    }
    let _ = out.write_all(if same { b"=\n" } else { b"!\n" });
}

// The first bytes of a buffer, from the input, where there is room for them.
fn fetch<R: Read>(from: &mut R, buffer: &mut [u8], size: usize) {
    if size <= buffer.len() {
        read_full(from, &mut buffer[..size]);
    }
}

// Reads one file and what its edges must be; false where the input has ended, which is no failure: an Option of nothing says no
// more. The lists are not clear beforehand.
fn one<R: Read, W: Write>(from: &mut R, out: &mut W, room: &mut Room) -> bool {
    let Some(size) = file_size(from) else {
        return false;
    };
    if room.file.len() < size {
        return false;
    }
    fetch(from, &mut room.file, size);
    room.expected.fill(0);
    if let Some(known) = file_size(from) {
        fetch(from, &mut room.expected, known);
    }
    let site = room.read(size);
    tell(out, site, room.edges_are());
    true
}

fn all<R: Read, W: Write>(from: &mut R, out: &mut W, room: &mut Room) {
    for _ in 0..FILES {
        if !one(from, out, room) {
            return;
        }
    }
}

fn main(rt: HostRuntime) {
    let mut room = Room {
        file: [0; 65540],
        expected: [0; 16384],
        first: [7; ENTRIES],
        second: [8; ENTRIES],
        weight: [9; ENTRIES],
    };
    all(&mut rt.reader(), &mut io::writer(&rt), &mut room);
}
