// Plans each site file of standard input and writes its printed answer, one after the other. The buffer of an answer is not clear
// beforehand. The input and the text that must come out are made by compare/site-answers, which knows document 01 and the source that
// decides the pairs, and nothing of this code.
#![tactic(auto)]

use replays::{file_size, read_full};
use sites::plan_site;
use std::io;
use std::io::{Read, Write};

// At most so many files are answered: this program's own limit.
const FILES: u32 = 100000;

// Writes the answer of a file. An answer of 32 pairs has at most 608 bytes. A write that fails is passed over. The lists are fixed:
// with a heap the program could fail.
fn answer<W: Write>(out: &mut W, file: &[u8]) {
    let mut text = [b'?'; 1024];
    let size = plan_site(file, &mut text);
    let _ = out.write_all(&text[..size]);
}

// Reads and answers one file; false where the input has ended, which is no failure: an Option of nothing says no more.
fn one<R: Read, W: Write>(from: &mut R, out: &mut W, buffer: &mut [u8]) -> bool {
    let Some(size) = file_size(from) else {
        return false;
    };
    if buffer.len() < size {
        return false;
    }
    read_full(from, &mut buffer[..size]);
    answer(out, &buffer[..size]);
    true
}

fn all<R: Read, W: Write>(from: &mut R, out: &mut W, buffer: &mut [u8]) {
    for _ in 0..FILES {
        if !one(from, out, buffer) {
            return;
        }
    }
}

fn main(rt: HostRuntime) {
    let mut buffer = [0u8; 65540];
    all(&mut rt.reader(), &mut io::writer(&rt), &mut buffer);
}
