// Plans each problem of standard input in both forms, on three lists and on edge entries, and holds what each call leaves against the
// record: the answer, the pairs, and every entry of the lent lists. The input is the oracle's fixed list, and after it a list of records
// that are wrong in one place each, so that it is seen that each difference is told. It writes each record that differs, with the number
// of what does (1 number, 2 place, 3 steps, 4 pairs, 5 mates, 6 duals, 7 parents; 8 to 14 the same on edge entries), and of each list how
// many records it has and how many differ. The list's form is in compare/README.md; compare/answers/make makes the wrong ones.
#![tactic(auto)]

ghost use Rattle.std.specs.Prelude.{◌≤◌};

use entries::EdgeEntry;
use plan::answers::Answer;
use replays::{bytes, long_number, number, tell};
use std::io;
use std::io::{Read, Write};

// Document 01's mark. The program knows the calls alone, not the library's numbers.
const MISSING: u16 = 65535;

// Any edge: what stands in a list of edges before it is read.
const EDGE: EdgeEntry = EdgeEntry {
    first: 0,
    second: 0,
    weight: 0,
};

// A record's edges in both forms.
#[derive(Drop)]
struct Problem<'a> {
    n: usize,
    flag: bool,
    first: &'a [u16],
    second: &'a [u16],
    weight: &'a [i64],
    edges: &'a [EdgeEntry],
}

// What a call leaves. The lent lists are longer than any record needs.
#[derive(Drop)]
struct Left {
    answer: Answer,
    mates: [u16; 67],
    duals: [i64; 131],
    parents: [u16; 131],
}

// What a record says of that: the answer is DONE. An entry that the record doesn't have must be missing, a dual 0.
#[derive(Drop)]
struct Record {
    steps: u32,
    pairs: [Option<(u16, u16)>; 255],
    mates: [u16; 67],
    duals: [i64; 131],
    parents: [u16; 131],
}

// The generic reader is `bytes`; std has its conversions width by width.
fn byte<R: Read>(from: &mut R) -> u8 {
    u8::from_le_bytes(bytes(from))
}

// A signed number of four bytes.
fn weight_of<R: Read>(from: &mut R) -> i64 {
    i64::from(i32::from_le_bytes(bytes(from)))
}

// A signed number of eight bytes.
fn dual_of<R: Read>(from: &mut R) -> i64 {
    i64::from_le_bytes(bytes(from))
}

// The node at end p.
fn node_at(first: &[u16], second: &[u16], p: u16) -> Option<u16> {
    let nodes = if p % 2 == 0 { first } else { second };
    nodes.get(usize::from(p / 2)).copied()
}

// Node v and its partner at end p, where v is the lower of the two.
fn pair_from(first: &[u16], second: &[u16], v: u16, p: u16) -> Option<(u16, u16)> {
    let w = node_at(first, second, p)?;
    (v < w).then_some((v, w))
}

impl Problem<'_> {
    // The lent lists hold 7 before a call.
    fn on_lists(&self) -> Left {
        let mut mates = [7; 67];
        let mut duals = [7; 131];
        let mut parents = [7; 131];
        let answer = plan::plan(
            self.n,
            self.first,
            self.second,
            self.weight,
            self.flag,
            u32::MAX,
            &mut mates,
            &mut duals,
            &mut parents,
        );
        Left {
            answer,
            mates,
            duals,
            parents,
        }
    }

    fn on_entries(&self) -> Left {
        let mut mates = [7; 67];
        let mut duals = [7; 131];
        let mut parents = [7; 131];
        let answer = entries::plan(
            self.n,
            self.edges,
            self.flag,
            u32::MAX,
            &mut mates,
            &mut duals,
            &mut parents,
        );
        Left {
            answer,
            mates,
            duals,
            parents,
        }
    }
}

impl Record {
    // The record of n nodes that comes next.
    fn read<R: Read>(from: &mut R, n: usize) -> Record
        requires { n ≤ 255 }
    {
        let steps = long_number(from);
        let mut pairs = [None; 255];
        let count = usize::from(byte(from));
        for pair in &mut pairs[..count] {
            let v = u16::from(byte(from));
            let w = u16::from(byte(from));
            *pair = Some((v, w));
        }
        let mut mates = [MISSING; 67];
        let mut duals = [0; 131];
        let mut parents = [MISSING; 131];
        mates[..n.min(67)].fill_with(|| number(from));
        duals[..(2 * n).min(131)].fill_with(|| dual_of(from));
        parents[..(2 * n).min(131)].fill_with(|| number(from));
        Record {
            steps,
            pairs,
            mates,
            duals,
            parents,
        }
    }

    // The pairs that the mates make, ascending by lower node, are those of the record.
    fn same_pairs(&self, problem: &Problem<'_>, mates: &[u16]) -> bool {
        let mut pairs = (0..)
            .zip(mates)
            .filter_map(|(v, p)| pair_from(problem.first, problem.second, v, *p));
        let mut same = true;
        for pair in &self.pairs {
            same &= pairs.next() == *pair;
        }
        same
    }

    fn same(&self, problem: &Problem<'_>, left: &Left) -> [bool; 7] {
        [
            left.answer.number() == 0,
            left.answer.place() == 0,
            left.answer.steps() == self.steps,
            self.same_pairs(problem, &left.mates),
            left.mates == self.mates,
            left.duals == self.duals,
            left.parents == self.parents,
        ]
    }
}

// One record. One that says more edges than there is room for is passed over: nothing more of it is read, and nothing is told.
fn replay<R: Read>(from: &mut R) -> [bool; 14] {
    let n = usize::from(byte(from));
    let flag = byte(from) == 1;
    let m = usize::from(number(from));
    let mut same = [true; 14];
    if 2048 < m {
        return same;
    }
    let first = &mut [0; 2048][..m];
    let second = &mut [0; 2048][..m];
    let weight = &mut [0; 2048][..m];
    let edges = &mut [EDGE; 2048][..m];
    edges.fill_with(|| EdgeEntry {
        first: u16::from(byte(from)),
        second: u16::from(byte(from)),
        weight: weight_of(from),
    });
    for (((a, b), w), edge) in first
        .iter_mut()
        .zip(&mut *second)
        .zip(&mut *weight)
        .zip(&*edges)
    {
        *a = edge.first;
        *b = edge.second;
        *w = edge.weight;
    }
    let record = Record::read(from, n);
    let problem = Problem {
        n,
        flag,
        first,
        second,
        weight,
        edges,
    };
    same[..7].copy_from_slice(&record.same(&problem, &problem.on_lists()));
    same[7..].copy_from_slice(&record.same(&problem, &problem.on_entries()));
    same
}

// Replays a list, whose first record has this place: how many records it has, and how many of them differ. It begins with its mark,
// which is not looked at, and its count. A write that fails is passed over.
fn replay_list<R: Read, W: Write>(from: &mut R, out: &mut W, place: u32) -> (u32, u32) {
    long_number(from);
    let count = long_number(from);
    let mut others = 0u32;
    for k in 0..count {
        let same = replay(from);
        let _ = tell(out, place.saturating_add(k), &same);
        others = others.saturating_add(u32::from(same.contains(&false)));
    }
    (count, others)
}

fn main(rt: HostRuntime) {
    let mut from = rt.reader();
    let mut out = io::writer(&rt);
    let (count, others) = replay_list(&mut from, &mut out, 0);
    let (wrong, told) = replay_list(&mut from, &mut out, count);
    let _ = writeln!(
        out,
        "{count} records on three lists and on edge entries, {others} differ"
    );
    let _ = writeln!(out, "{wrong} records made wrong, {told} told");
}
