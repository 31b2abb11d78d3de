// A group that is taken apart: its children by their places, which stay while the lists change, and its number made free.
ghost use Rattle.std.specs.Prelude.{ℕ, IsOk, ◌≡◌, ◌+◌, ◌*◌, ◌-◌, ◌≤◌, ◌<◌, get_or, length};
ghost use Rattle.std.specs.Result.{IfOk};
ghost use Rattle.laws.specs.Run.{at};
ghost use Rattle.steps.specs.State.{Labelling as LabellingOf, Pairing as PairingOf, Progress};
ghost use Rattle.numbers.specs.Answers.{Agrees};
ghost use Rattle.state.specs.Parts.{state_of, sized, size_of, whole};
ghost use Rattle.state.specs.Kids.{Counts, freed};
ghost use Rattle.state.specs.Keeps.{ButFree, InForest};

use crate::forest::Forest;
use crate::lists::Lists;
use crate::pools::Pool;
use edges::graph::Graph;
use numbers::Group;
use numbers::faults::Fault;

impl<'a> Pool<'a> {
    // How many entries the row of b has.
    pub fn count(&self, b: u16) -> Result<u16, Fault>
        ensures said { (n : ℕ) → length self.now.rows ≡ 2 * n → Counts n b self.now.places (at self.now.rows b) result }
        ensures inside { (n : ℕ) → length self.now.rows ≡ 2 * n → IfOk result (λ m. (b - n) * n + m ≤ length self.now.places) }
        ensures there { b < length self.now.rows → IsOk result }
    {
        // The pool's lengths are known only where a field is named.
        let _ = &self.places;
        let row = self.row(b)?;
        Ok(row.len() as u16)
    }

    // Place k of group b's row, in a pool for n nodes.
    pub fn place(&self, n: u16, b: u16, k: u16) -> u16
        requires { (b - n) * n + k < length self.now.places }
        ensures { result ≡ get_or self.now.places ((b - n) * n + k) 0 }
    {
        let from = b.saturating_sub(n) as usize * n as usize;
        self.places[from + k as usize]
    }
}

impl<'a> Forest<'a> {
    // How many children b has.
    pub fn child_count(&self, b: Group) -> Result<u16, Fault>
        ensures said { Counts self.now.nodes b self.now.kids (at self.now.lists.children b) result }
        ensures inside { IfOk result (λ m. (b - self.now.nodes) * self.now.nodes + m ≤ length self.now.kids) }
    {
        self.children.count(b.number())
    }

    // The child at place k of b's ring.
    pub fn child_at(&self, b: Group, k: u16) -> Group
        requires { (b - self.now.nodes) * self.now.nodes + k < length self.now.kids }
        ensures { result ≡ get_or self.now.kids ((b - self.now.nodes) * self.now.nodes + k) 0 }
    {
        Group::of(self.children.place(self.n, b.number(), k))
    }

    // Number b goes on the end of the free numbers, of which there are at most n.
    pub fn free_number(&mut self, b: Group) -> Result<(), Fault>
        ensures said { (l : LabellingOf) (q : PairingOf) (at : Progress) → Agrees (freed self.old.nodes b (whole self.old.lists l q at)) result (whole self.new.lists l q at) }
        ensures size { self.new.nodes ≡ self.old.nodes }
        ensures kids { self.new.kids ≡ self.old.kids }
        ensures others { ButFree self.old self.new }
    {
        self.free.push(b.number())
    }
}

impl<'a> Lists<'a> {
    // How many children b has.
    pub fn child_count(&self, b: Group) -> Result<u16, Fault>
        ensures said { Counts self.now.labels.size.nodes b self.now.forest.kids (at self.now.forest.lists.children b) result }
        ensures inside { IfOk result (λ m. (b - self.now.labels.size.nodes) * self.now.labels.size.nodes + m ≤ length self.now.forest.kids) }
    {
        self.forest.child_count(b)
    }

    // The child at place k of b's ring.
    pub fn child_at(&self, b: Group, k: u16) -> Group
        requires { (b - self.now.labels.size.nodes) * self.now.labels.size.nodes + k < length self.now.forest.kids }
        ensures { result ≡ get_or self.now.forest.kids ((b - self.now.labels.size.nodes) * self.now.labels.size.nodes + k) 0 }
    {
        self.forest.child_at(b, k)
    }

    // Number b goes on the end of the free numbers, of which there are at most n.
    pub fn free_number(&mut self, g: &Graph, b: Group) -> Result<(), Fault>
        requires { sized self.old ≡ size_of g.now }
        ensures said { (at : Progress) → Agrees (freed g.now.nodes b (state_of self.old at)) result (state_of self.new at) }
        ensures size { sized self.new ≡ sized self.old }
        ensures kids { self.new.forest.kids ≡ self.old.forest.kids }
        ensures others { InForest self.old self.new × ButFree self.old.forest self.new.forest }
    {
        self.forest.free_number(b)
    }
}
