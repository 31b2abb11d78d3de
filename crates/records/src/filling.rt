// A draft filled: what it is at first, where a kind of record may stand, one edge more.
ghost use Rattle.std.specs.Prelude.{◌≡◌, ◌≢◌, ℕ, [], ◌∷◌, ◌++◌, ◌<◌, ◌≤◌, leb, length, take, set, replicate, IfSome};
ghost use Rattle.matching.specs.Graph.{edge};
ghost use Rattle.steps.specs.Refusals.{max_nodes, max_edges};
ghost use Rattle.records.specs.Site.{misplaced as misplaced_of, budget_of as budget_said, time_of as time_said, unread, is_full, with_nodes, take_in, untimed};
ghost use Rattle.records.specs.View.{head_of, kind_view, times_now, edges_now, view_of, timed, Past, Same};

use crate::draft::{Draft, Reading};
use crate::kind::Kind;

// The limits as numbers of the file, of 16 bits; the plan call's are lengths of lists.
pub(crate) const MAX_NODES: u16 = 64;

pub(crate) const MAX_EDGES: u16 = 2048;

// A node that has no throw time yet. A mark and no Option: the definition's list of times holds it.
pub(crate) const UNTIMED: u32 = 4294967295;

impl Reading {
    // Nothing has been read.
    pub fn start() -> Reading
        ensures { (head_of result ≡ unread) × (result.count ≡ 0) }
    {
        Reading {
            opened: false,
            gone: false,
            flagged: false,
            budgeted: false,
            nodes: 0,
            flag: false,
            budget: 0,
            count: 0,
        }
    }

    // N not first or repeated, C or B repeated, anything after G.
    #[tactic(auto, unfolding(crate::specs::Site::misplaced))]
    pub(crate) fn misplaces(self, k: Kind) -> bool
        ensures { result ≡ misplaced_of (kind_view k) (head_of self) }
    {
        if self.gone {
            return true;
        }
        if !self.opened {
            return k != Kind::N;
        }
        match k {
            Kind::N => true,
            Kind::C => self.flagged,
            Kind::B => self.budgeted,
            Kind::E | Kind::T | Kind::J | Kind::G => false,
        }
    }

    // No B means 8·n·(n+1).
    #[tactic(auto, unfolding(crate::specs::Site::budget_of))]
    pub(crate) fn budget_of(self) -> u32
        ensures { result ≡ budget_said (head_of self) }
    {
        if self.budgeted {
            return self.budget;
        }
        let n = u32::from(self.nodes);
        8 * n * (n + 1)
    }
}

impl<'a> Draft<'a> {
    // The throw time of node v, where a T gave one.
    #[tactic(auto, unfolding(crate::specs::Site::time_of))]
    pub(crate) fn time_of(&self, v: u16) -> Option<u32>
        ensures said { timed result ≡ time_said (times_now self.now) v }
        ensures some { IfSome result (λ t. t ≢ untimed) }
    {
        if self.read.nodes <= v {
            return None;
        }
        let t = self.times[usize::from(v)];
        if t == UNTIMED { None } else { Some(t) }
    }

    // So many nodes, and none has a time.
    #[tactic(auto, using(laws::proofs::Windows::take_replicate))]
    pub(crate) fn name_nodes(&mut self, n: u16)
        requires { n ≤ max_nodes }
        ensures head { head_of self.new.read ≡ with_nodes n (head_of self.old.read) }
        ensures times { times_now self.new ≡ replicate n untimed }
        ensures edges { edges_now self.new ≡ edges_now self.old }
        ensures past { Past self.old self.new }
        ensures same { Same self.old self.new }
    {
        self.times[..usize::from(n)].fill(UNTIMED);
        self.read.opened = true;
        self.read.nodes = n;
    }

    // The throw time of node v becomes t.
    #[tactic(auto, using(laws::proofs::Windows::take_set))]
    pub(crate) fn set_time(&mut self, v: u16, t: u32)
        requires { v < self.old.read.nodes }
        ensures head { head_of self.new.read ≡ head_of self.old.read }
        ensures times { times_now self.new ≡ set (times_now self.old) v t }
        ensures edges { edges_now self.new ≡ edges_now self.old }
        ensures past { Past self.old self.new }
        ensures same { Same self.old self.new }
    {
        self.times[usize::from(v)] = t;
    }

    // There is no room for one more edge.
    #[tactic(auto, using(crate::proofs::Edges::full))]
    pub(crate) fn is_full(&self) -> bool
        ensures said { (p : ℕ) → result ≡ is_full (view_of p self.now) }
        ensures count { result ≡ leb max_edges self.now.read.count }
    {
        MAX_EDGES <= self.read.count
    }

    // One edge more.
    #[tactic(auto, using(crate::proofs::Edges::one_more))]
    pub(crate) fn push(&mut self, a: u16, b: u16, w: i64)
        requires { self.old.read.count < max_edges }
        ensures head { head_of self.new.read ≡ head_of self.old.read }
        ensures times { times_now self.new ≡ times_now self.old }
        ensures edges { edges_now self.new ≡ edges_now self.old ++ (edge a b w ∷ []) }
        ensures past { Past self.old self.new }
        ensures same { Same self.old self.new }
    {
        let k = usize::from(self.read.count);
        self.first[k] = a;
        self.second[k] = b;
        self.weight[k] = w;
        self.read.count += 1;
    }
}
