// A path of groups, and for each the end through which it got its label; then the ring that two paths make.
ghost use Rattle.std.specs.Prelude.{◌≡◌, [], ◌++◌, reverse, map, ◌+◌, ◌*◌, ◌<◌, ◌≤◌, length, take, drop};
ghost use Rattle.matching.specs.Graph.{beside as beside_of};
ghost use Rattle.grouping.specs.Paths.{pathed, Pushes, closed, joined};

use numbers::faults::Fault;
use numbers::{Edge, End, Group};
use state::pools::write_at;
use std::marker::Model;

#[derive(Drop)]
pub struct Path<'a> {
    kids: &'a mut [u16],
    ends: &'a mut [u16],
    len: u16,
}

impl<'a> Model for Path<'a> {
    ghost use Rattle.std.specs.Prelude.{take, length};
    ghost use Rattle.grouping.specs.Paths.{Pathed, PathFits};

    ghost Value = { Pathed };

    ghost view = { λ p. record { kids = take p.len p.kids.now; ends = take p.len p.ends.now; room = length p.kids.now } };

    ghost invariant = { λ p. PathFits p.kids.now p.ends.now p.len };
}

impl<'a> Path<'a> {
    // No group yet.
    pub fn new(kids: &'a mut [u16], ends: &'a mut [u16]) -> Path<'a>
        requires { (length ends.old ≡ length kids.old) × (length kids.old ≤ 65535) }
        ensures { result ≡ pathed [] [] (length kids.old) }
    {
        Path { kids, ends, len: 0 }
    }

    // A method of its own, as `Stack` and `Links` have: a trait for one line would be no shorter.
    pub fn clear(&mut self)
        ensures { self.new ≡ pathed [] [] self.old.room }
    {
        self.len = 0;
    }

    pub fn len(&self) -> u16
        ensures said { result ≡ length self.now.kids }
        ensures few { result ≤ self.now.room }
    {
        self.len
    }

    // Two lists and no list of pairs: each is lent by itself, and the ring's rows take it so.
    pub fn kids(&self) -> &[u16]
        ensures { result.now ≡ self.now.kids }
    {
        &self.kids[..self.len as usize]
    }

    // As many ends as there are groups.
    pub fn ends(&self) -> &[u16]
        ensures said { result.now ≡ self.now.ends }
        ensures same { length result.now ≡ length self.now.kids }
    {
        &self.ends[..self.len as usize]
    }

    // A group and its end go on the end.
    pub fn push(&mut self, kid: Group, end: End) -> Result<(), Fault>
        ensures said { Pushes kid end self.old result self.new }
        ensures room { self.new.room ≡ self.old.room }
    {
        let at = self.len as usize;
        if at >= self.kids.len() {
            return Err(Fault);
        }
        self.kids[at] = kid.number();
        self.ends[at] = end.number();
        self.len += 1;
        Ok(())
    }

    // From the first path, with the base's child on its end: both backward, and the first end of edge e.
    pub fn close(&mut self, first: Group, e: Edge)
        requires { (length self.old.kids < self.old.room) × (e < 32768) }
        ensures { self.new ≡ closed first e self.old }
    {
        let k = self.len as usize;
        self.kids[k] = first.number();
        turn(self.kids, k + 1);
        turn(self.ends, k);
        self.ends[k] = e.first_end().number();
        self.len += 1;
    }

    // The second path goes on the end, with the ends beside its ends.
    pub fn join(&mut self, other: &Path)
        requires { length self.old.kids + length other.now.kids ≤ self.old.room }
        ensures { self.new ≡ joined self.old other.now }
    {
        let k = self.len as usize;
        write_at(self.kids, k, other.kids());
        put_beside(self.ends, k, other.ends());
        self.len += other.len;
    }
}

// The first k of a list, backward.
fn turn(list: &mut [u16], k: usize)
    requires { k ≤ length list.old }
    ensures { list.new ≡ reverse (take k list.old) ++ drop k list.old }
{
    list[..k].reverse();
}

// The ends beside these go to a list's places from one on.
fn put_beside(list: &mut [u16], from: usize, ends: &[u16])
    requires { from + length ends.now ≤ length list.old }
    ensures { take (from + length ends.now) list.new ≡ take from list.old ++ map beside_of ends.now }
{
    // Two lists at one place: writing through an iterator would tell nothing of the entries.
    for k in 0..ends.len() {
        list[from + k] = End::of(ends[k]).beside().number();
    }
}
