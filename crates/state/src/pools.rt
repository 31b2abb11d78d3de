// Lists with a count: a stack, and the rows of a pool.
ghost use Rattle.std.specs.Prelude.{ℕ, List, IsOk, ◌≡◌, ◌≤◌, ◌<◌, ◌+◌, ◌*◌, ◌++◌, [], length, take, drop};
ghost use Rattle.laws.specs.Run.{ok, at, put, push as push_of, pop as pop_of};
ghost use Rattle.numbers.specs.Pools.{pooled, PoolFits};
ghost use Rattle.steps.specs.Ring.{rotate};
ghost use Rattle.steps.specs.Leaves.{leaves as leaves_of};
ghost use Rattle.numbers.specs.Answers.{AnswersRow, RowFits, Agrees, Kept};
ghost use Rattle.state.specs.Pops.{Pops, is_nil};

use numbers::faults::Fault;
use std::marker::Model;

#[derive(Drop)]
pub struct Stack<'a> {
    items: &'a mut [u16],
    len: u16,
}

impl<'a> Model for Stack<'a> {
    ghost use Rattle.std.specs.Prelude.{◌≤◌, ◌<◌, ◌^◌, take, length};
    ghost use Rattle.state.specs.Parts.{Stacked};

    ghost Value = { Stacked };

    ghost view = { λ s. record { entries = take s.len s.items.now; room = length s.items.now; places = s.items.now } };

    ghost invariant = { λ s. (s.len ≤ length s.items.now) × (length s.items.now < 2 ^ 16) };
}

impl<'a> Stack<'a> {
    // x goes on the end.
    #[tactic(auto, unfolding(laws::specs::Run::push))]
    pub fn push(&mut self, x: u16) -> Result<(), Fault>
        ensures said { Agrees (push_of self.old.room x self.old.entries) result self.new.entries }
        ensures room { self.new.room ≡ self.old.room }
    {
        let at = self.len as usize;
        if at >= self.items.len() {
            return Err(Fault);
        }
        self.items[at] = x;
        self.len += 1;
        Ok(())
    }
}

impl<'a> Stack<'a> {
    // The last entry is taken off.
    #[tactic(auto, using(crate::proofs::Pops::pops))]
    pub fn pop(&mut self) -> Result<u16, Fault>
        ensures said { Pops (pop_of self.old.entries) result self.new.entries }
        ensures room { self.new.room ≡ self.old.room }
        ensures places { self.new.places ≡ self.old.places }
        ensures kept { Kept result self.old self.new }
    {
        if self.len == 0 {
            return Err(Fault);
        }
        self.len -= 1;
        Ok(self.items[self.len as usize])
    }

    pub fn is_empty(&self) -> bool
        ensures { result ≡ is_nil self.now.entries }
    {
        self.len == 0
    }

    pub fn entries(&self) -> &[u16]
        ensures said { result.now ≡ self.now.entries }
        ensures fits { length result.now ≤ 65535 }
    {
        &self.items[..self.len as usize]
    }
}

// Makers: a state is cut from lists that the caller lends.
impl<'a> Stack<'a> {
    // The first len entries of a list.
    pub fn new(items: &'a mut [u16], len: u16) -> Stack<'a>
        requires { (len ≤ length items.old) × (length items.old < 65536) }
        ensures { (result.entries ≡ take len items.old) × (result.room ≡ length items.old) }
    {
        Stack { items, len }
    }

    // A method of its own, as grouping's paths and links have: a trait for one line would be no shorter.
    pub fn clear(&mut self)
        ensures { (self.new.entries ≡ []) × (self.new.room ≡ self.old.room) }
    {
        self.len = 0;
    }
}

// 2n lists in a pool of n rows of n places; a node has an empty row.
#[derive(Drop)]
pub struct Pool<'a> {
    pub(crate) n: u16,
    pub(crate) counts: &'a mut [u16],
    pub(crate) places: &'a mut [u16],
}

impl<'a> Model for Pool<'a> {
    ghost use Rattle.numbers.specs.Pools.{pooled, PoolFits};
    ghost use Rattle.state.specs.Parts.{Pooled};

    ghost Value = { Pooled };

    ghost view = { λ s. record { rows = pooled s.n s.counts.now s.places.now; places = s.places.now; counts = s.counts.now } };

    ghost invariant = { λ s. PoolFits s.n s.counts.now s.places.now };
}

impl<'a> Pool<'a> {
    // A pool of n rows, of which the counts say how many entries are in use.
    pub fn new(n: u16, counts: &'a mut [u16], places: &'a mut [u16]) -> Pool<'a>
        requires { PoolFits n counts.old places.old }
        ensures said { result.rows ≡ pooled n counts.old places.old }
        ensures places { result.places ≡ places.old }
    {
        Pool { n, counts, places }
    }

    // The row of group b becomes these.
    pub fn set_row(&mut self, b: u16, items: &[u16]) -> Result<(), Fault>
        requires fits { (length self.old.rows ≤ 2 * b) × (2 * length items.now ≤ length self.old.rows) }
        ensures said { Agrees (put self.old.rows b items.now) result self.new.rows }
        ensures size { length self.new.rows ≡ length self.old.rows }
    {
        let n = self.n as usize;
        let g = (b - self.n) as usize;
        if g >= n {
            return Err(Fault);
        }
        self.counts[g] = items.len() as u16;
        write_at(self.places, g * n, items);
        Ok(())
    }

    // The row of b is emptied. Its places are left as they are.
    pub fn clear_row(&mut self, b: u16) -> Result<(), Fault>
        ensures said { Agrees (put self.old.rows b []) result self.new.rows }
        ensures size { length self.new.rows ≡ length self.old.rows }
        ensures places { self.new.places ≡ self.old.places }
    {
        if b < self.n {
            return Ok(());
        }
        let g = (b - self.n) as usize;
        if g >= self.n as usize {
            return Err(Fault);
        }
        self.counts[g] = 0;
        Ok(())
    }

    // The list of b with its place i first; a list that has no place i stays as it is.
    pub fn rotate_row(&mut self, b: u16, i: u16)
        ensures said { (r : List ℕ) → at self.old.rows b ≡ ok r → put self.old.rows b (rotate i r) ≡ ok self.new.rows }
        ensures size { length self.new.rows ≡ length self.old.rows }
        ensures counts { self.new.counts ≡ self.old.counts }
    {
        if b < self.n {
            return;
        }
        let n = self.n as usize;
        let g = (b - self.n) as usize;
        if g >= n {
            return;
        }
        let count = (self.counts[g] as usize).min(n);
        if i as usize >= count {
            return;
        }
        rotate_at(self.places, g * n, count, i as usize);
    }

    // The list of b.
    pub fn row(&self, b: u16) -> Result<&[u16], Fault>
        ensures said { AnswersRow (at self.now.rows b) result }
        ensures fits { RowFits result }
        ensures there { b < length self.now.rows → IsOk result }
    {
        if b < self.n {
            return Ok(&[]);
        }
        let n = self.n as usize;
        let g = (b - self.n) as usize;
        if g >= n {
            return Err(Fault);
        }
        let count = (self.counts[g] as usize).min(n);
        let from = g * n;
        Ok(&self.places[from..from + count])
    }
}

// A list becomes a copy of another. Entry by entry: the slice's copy_from_slice is compiled to a call of memmove, which the C library
// would have to bring.
pub fn copy<T: Copy>(from: &[T], to: &mut [T])
    requires { length from.now ≡ length to.old }
    ensures { to.new ≡ from.now }
{
    for (i, x) in to.iter_mut().enumerate() {
        *x = from[i];
    }
}

// A list's places from one on become these.
pub fn write_at(list: &mut [u16], from: usize, items: &[u16])
    requires { from + length items.now ≤ length list.old }
    ensures { list.new ≡ take from list.old ++ (items.now ++ drop (from + length items.now) list.old) }
{
    let to = from + items.len();
    copy(items, &mut list[from..to]);
}

// A part of a list with its place k first: both parts in reverse order, and then the whole. The slice's rotate_left would call memmove.
#[tactic(auto, unfolding(steps::specs::Ring::rotate))]
pub fn rotate_at(list: &mut [u16], from: usize, count: usize, k: usize)
    requires { (from + count ≤ length list.old) × (k ≤ count) }
    ensures { list.new ≡ take from list.old ++ (rotate k (take count (drop from list.old)) ++ drop (from + count) list.old) }
{
    let part = &mut list[from..from + count];
    part[..k].reverse();
    part[k..].reverse();
    part.reverse();
}

// The nodes of b go on the end of out.
#[tactic(auto, unfolding(steps::specs::Leaves::leaves))]
pub fn leaves(kids: &Pool, n: u16, depth: u16, b: u16, out: &mut Stack) -> Result<(), Fault>
    ensures said { Agrees (leaves_of n out.old.room kids.now.rows depth b out.old.entries) result out.new.entries }
    ensures room { out.new.room ≡ out.old.room }
{
    if b < n {
        out.push(b)?;
        return Ok(());
    }
    if depth == 0 {
        return Err(Fault);
    }
    for &child in kids.row(b)? {
        leaves(kids, n, depth - 1, child, out)?;
    }
    Ok(())
}
