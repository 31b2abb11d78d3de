// Holds the numbers of include/lotamife.h, which standard input holds, against the definition's. It writes each name that the header gives a
// number, without LOTAMIFE_, and that number, with a ! behind it where the definition has another number or no such name; then the names
// that the header leaves out. What must come out has document 01's numbers.
#![tactic(auto)]

ghost use Rattle.std.specs.Prelude.{◌≡◌};
ghost use Rattle.header.specs.Numbers.{header_numbers};

use replays::read_full;
use std::io::{Read, Write};
use std::{io, str};

const COUNT: usize = 21;

const NAMES: [&str; COUNT] = [
    "MAX_NODES",
    "MAX_EDGES",
    "MAX_WEIGHT",
    "MISSING",
    "DONE",
    "YES",
    "NODES",
    "EDGES",
    "END",
    "LOOP",
    "WEIGHT",
    "BUFFER",
    "STEPS",
    "FAULT",
    "NO_MATE",
    "NO_PARENT",
    "NO_DUAL",
    "NO_EDGE",
    "NO_TIGHT",
    "NO_FREE",
    "NO_FULL",
];

// The definition's number of each name.
fn numbers() -> [u32; COUNT]
    ensures { result ≡ header_numbers }
{
    [
        64, 2048, 1000000000, 65535, 0, 0, 1, 2, 3, 4, 5, 6, 7, 8, 11, 12, 13, 14, 15, 16, 17,
    ]
}

// The name that a line of the header gives a number, and the number.
fn given(line: &str) -> Option<(&str, u32)> {
    let mut words = line.split_whitespace();
    let mut name = words.next()?;
    if name == "#define" {
        name = words.next()?;
    }
    let name = name.strip_prefix("LOTAMIFE_")?;
    let mut number = words.next()?;
    if number == "=" {
        number = words.next()?;
    }
    let number = number.trim_end_matches(',').parse().ok()?;
    Some((name, number))
}

// The definition's number of a name.
fn number_of(name: &str) -> Option<u32> {
    let numbers = numbers();
    let mut known = NAMES.iter().zip(&numbers);
    known.find(|(other, _)| **other == name).map(|(_, x)| *x)
}

// A write that fails is passed over.
fn tell<W: Write>(out: &mut W, header: &str) {
    let mut seen = [false; COUNT];
    for line in header.lines() {
        if let Some((name, number)) = given(line) {
            let mark = if number_of(name) == Some(number) {
                ""
            } else {
                " !"
            };
            let _ = writeln!(out, "{name} {number}{mark}");
            for (known, seen) in NAMES.iter().zip(&mut seen) {
                *seen |= *known == name;
            }
        }
    }
    for (name, seen) in NAMES.iter().zip(&seen) {
        if !*seen {
            let _ = writeln!(out, "{name} left out");
        }
    }
}

// What is longer than the buffer is left out, and so it is told.
fn main(rt: HostRuntime) {
    let mut file = [0; 16384];
    let size = read_full(&mut rt.reader(), &mut file);
    if let Ok(header) = str::from_utf8(&file[..size]) {
        tell(&mut io::writer(&rt), header);
    }
}
