// Plans each problem of standard input and holds the answer, number, place and steps, and the whole of the three lent lists, against what
// comes next: on three lists of edges, and where these are of one length on edge entries too. It writes each problem that differs, with
// the number of what does (7 to 12 on edge entries), and how many problems there were in each form. The problems lie on both sides of every
// limit, document 01's table is among them, and some are recorded wrong, so that it is seen that each difference is told. All is made by
// compare/limits/make, which knows document 01 and nothing of this code.
#![tactic(auto)]

ghost use Rattle.std.specs.Prelude.{◌≤◌, length};

use entries::EdgeEntry;
use plan::answers::Answer;
use replays::{ENTRIES, amount, length, long_number, number, tell};
use std::io;
use std::io::{Read, Write};

// What stands in a list of edges before they are laid.
const EDGE: EdgeEntry = EdgeEntry {
    first: 0,
    second: 0,
    weight: 0,
};

#[derive(Drop)]
struct Problem<'a> {
    n: usize,
    flag: bool,
    budget: u32,
    first: &'a [u16],
    second: &'a [u16],
    weight: &'a [i64],
    ghost few: { length first.now ≤ 2112 },
}

// What a problem must come to, with the lent lists over their whole length.
#[derive(Drop)]
struct Expected<'a> {
    number: u16,
    place: u16,
    steps: u32,
    mates: &'a [u16],
    duals: &'a [i64],
    parents: &'a [u16],
}

impl Problem<'_> {
    fn on_lists(&self, mates: &mut [u16], duals: &mut [i64], parents: &mut [u16]) -> Answer {
        plan::plan(
            self.n,
            self.first,
            self.second,
            self.weight,
            self.flag,
            self.budget,
            mates,
            duals,
            parents,
        )
    }

    // None where the three lists are not of one length: then they are no list of edges.
    fn on_entries(
        &self,
        mates: &mut [u16],
        duals: &mut [i64],
        parents: &mut [u16],
    ) -> Option<Answer> {
        let m = self.first.len();
        if self.second.len() != m || self.weight.len() != m {
            return None;
        }
        let edges = &mut [EDGE; ENTRIES][..m];
        let given = self.first.iter().zip(self.second).zip(self.weight);
        for (edge, ((first, second), weight)) in edges.iter_mut().zip(given) {
            edge.first = *first;
            edge.second = *second;
            edge.weight = *weight;
        }
        Some(entries::plan(self.n, edges, self.flag, self.budget, mates, duals, parents))
    }
}

impl Expected<'_> {
    fn same(&self, a: Answer, mates: &[u16], duals: &[i64], parents: &[u16]) -> [bool; 6] {
        [
            a.number() == self.number,
            a.place() == self.place,
            a.steps() == self.steps,
            mates == self.mates,
            duals == self.duals,
            parents == self.parents,
        ]
    }
}

// Holds both forms against what comes next; what differs, and whether there are edge entries. The lent lists hold 7 before a call.
fn compare<R: Read>(
    from: &mut R,
    problem: &Problem<'_>,
    mates: &mut [u16],
    duals: &mut [i64],
    parents: &mut [u16],
) -> ([bool; 12], bool)
    requires mates { length mates.old ≤ 2112 }
    requires duals { length duals.old ≤ 2112 }
    requires parents { length parents.old ≤ 2112 }
{
    let (answer, place, steps) = (number(from), number(from), long_number(from));
    let next_mates = &mut [0; ENTRIES][..mates.len()];
    let next_duals = &mut [0; ENTRIES][..duals.len()];
    let next_parents = &mut [0; ENTRIES][..parents.len()];
    next_mates.fill_with(|| number(from));
    next_duals.fill_with(|| amount(from));
    next_parents.fill_with(|| number(from));
    let expected = Expected {
        number: answer,
        place,
        steps,
        mates: next_mates,
        duals: next_duals,
        parents: next_parents,
    };
    let mut same = [true; 12];
    let a = problem.on_lists(mates, duals, parents);
    same[..6].copy_from_slice(&expected.same(a, mates, duals, parents));
    mates.fill(7);
    duals.fill(7);
    parents.fill(7);
    let Some(a) = problem.on_entries(mates, duals, parents) else {
        return (same, false);
    };
    same[6..].copy_from_slice(&expected.same(a, mates, duals, parents));
    (same, true)
}

// One problem.
fn replay<R: Read>(from: &mut R) -> ([bool; 12], bool) {
    let n = usize::from(number(from));
    let flag = number(from) == 1;
    let budget = long_number(from);
    let first = &mut [0; ENTRIES][..length(from)];
    let second = &mut [0; ENTRIES][..length(from)];
    let weight = &mut [0; ENTRIES][..length(from)];
    let mates = &mut [7; ENTRIES][..length(from)];
    let duals = &mut [7; ENTRIES][..length(from)];
    let parents = &mut [7; ENTRIES][..length(from)];
    first.fill_with(|| number(from));
    second.fill_with(|| number(from));
    weight.fill_with(|| amount(from));
    let problem = Problem {
        n,
        flag,
        budget,
        first,
        second,
        weight,
    };
    compare(from, &problem, mates, duals, parents)
}

// The input begins with its count of problems. A write that fails is passed over.
fn main(rt: HostRuntime) {
    let mut from = rt.reader();
    let mut out = io::writer(&rt);
    let count = long_number(&mut from);
    let mut on_entries = 0u32;
    for place in 0..count {
        let (same, has_entries) = replay(&mut from);
        let _ = tell(&mut out, place, &same);
        on_entries = on_entries.saturating_add(u32::from(has_entries));
    }
    let _ = writeln!(
        out,
        "{count} problems on three lists, {on_entries} on edge entries"
    );
}
