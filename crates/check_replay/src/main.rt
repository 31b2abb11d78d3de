// Judges each certificate of standard input and writes its verdict, number and place, one to a line: on three lists of edges, and where
// these are of one length behind it the verdict on edge entries. At the end stands how many there were in each form. The input and the lines
// that must come out are made by compare/certificates/make, which knows document 01 and nothing of this code.
#![tactic(auto)]

ghost use Rattle.std.specs.Prelude.{◌≤◌, length};

use certificate::answers::Verdict;
use entries::EdgeEntry;
use replays::{ENTRIES, amount, length, number, read_full};
use std::io;
use std::io::{Read, Write};

// What stands in a list of edges before they are laid.
const EDGE: EdgeEntry = EdgeEntry {
    first: 0,
    second: 0,
    weight: 0,
};

// A certificate, and the edges that it is for.
#[derive(Drop)]
struct Judged<'a> {
    n: usize,
    flag: bool,
    first: &'a [u16],
    second: &'a [u16],
    weight: &'a [i64],
    mates: &'a [u16],
    duals: &'a [i64],
    parents: &'a [u16],
    ghost few: { length first.now ≤ 2112 },
}

impl Judged<'_> {
    fn on_lists(&self) -> Verdict {
        certificate::check(
            self.n,
            self.first,
            self.second,
            self.weight,
            self.flag,
            self.mates,
            self.duals,
            self.parents,
        )
    }

    // None where the three lists are not of one length: then they are no list of edges.
    fn on_entries(&self) -> Option<Verdict> {
        let m = self.first.len();
        if self.second.len() != m || self.weight.len() != m {
            return None;
        }
        let edges = &mut [EDGE; ENTRIES][..m];
        let given = self.first.iter().zip(self.second).zip(self.weight);
        for (edge, ((first, second), weight)) in edges.iter_mut().zip(given) {
            edge.first = *first;
            edge.second = *second;
            edge.weight = *weight;
        }
        Some(entries::check(
            self.n,
            edges,
            self.flag,
            self.mates,
            self.duals,
            self.parents,
        ))
    }
}

// The node count that the next certificate begins with; none where the input has ended.
fn node_count<R: Read>(from: &mut R) -> Option<u16> {
    let mut head = [0; 2];
    (read_full(from, &mut head) == 2).then(|| u16::from_le_bytes(head))
}

// Reads one certificate of n nodes and judges it in both forms. Fixed lists, cut to their length: with a heap the program could fail.
fn judge<R: Read>(from: &mut R, n: usize) -> (Verdict, Option<Verdict>) {
    let flag = number(from) == 1;
    let first = &mut [0; ENTRIES][..length(from)];
    let second = &mut [0; ENTRIES][..length(from)];
    let weight = &mut [0; ENTRIES][..length(from)];
    let mates = &mut [0; ENTRIES][..length(from)];
    let duals = &mut [0; ENTRIES][..length(from)];
    let parents = &mut [0; ENTRIES][..length(from)];
    first.fill_with(|| number(from));
    second.fill_with(|| number(from));
    weight.fill_with(|| amount(from));
    mates.fill_with(|| number(from));
    duals.fill_with(|| amount(from));
    parents.fill_with(|| number(from));
    let judged = Judged {
        n,
        flag,
        first,
        second,
        weight,
        mates,
        duals,
        parents,
    };
    (judged.on_lists(), judged.on_entries())
}

// The loop counts its turns, since nothing says that the input ends. A write that fails is passed over.
fn main(rt: HostRuntime) {
    let mut from = rt.reader();
    let mut out = io::writer(&rt);
    let mut counts = (0u32, 0u32);
    for _ in 0..100000 {
        let Some(n) = node_count(&mut from) else {
            break;
        };
        let (v, on_entries) = judge(&mut from, usize::from(n));
        let _ = write!(out, "{} {}", v.number(), v.place());
        counts.0 = counts.0.saturating_add(1);
        if let Some(v) = on_entries {
            let _ = write!(out, " {} {}", v.number(), v.place());
            counts.1 = counts.1.saturating_add(1);
        }
        let _ = writeln!(out);
    }
    let _ = writeln!(
        out,
        "{} on three lists, {} on edge entries",
        counts.0, counts.1
    );
}
