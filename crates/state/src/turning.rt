// A ring turned in its place: its children and its ends, with place i first.
ghost use Rattle.std.specs.Prelude.{◌≡◌, List, ℕ};
ghost use Rattle.laws.specs.Run.{ok, at};
ghost use Rattle.steps.specs.Ring.{rotate};
ghost use Rattle.steps.specs.State.{Labelling, Pairing, Progress};
ghost use Rattle.steps.specs.Stores.{put_children, put_ring_ends};
ghost use Rattle.state.specs.Parts.{whole, state_of, sized};
ghost use Rattle.state.specs.Keeps.{ButChildren, ButRingEnds, InForest};

use crate::forest::Forest;
use crate::lists::Lists;
use numbers::Group;

impl<'a> Forest<'a> {
    pub fn turn_children(&mut self, b: Group, i: u16)
        ensures said { (r : List ℕ) → at self.old.lists.children b ≡ ok r → (l : Labelling) (q : Pairing) (p : Progress) → put_children b (rotate i r) (whole self.old.lists l q p) ≡ ok (whole self.new.lists l q p) }
        ensures size { self.new.nodes ≡ self.old.nodes }
        ensures others { ButChildren self.old self.new }
        ensures counts { self.new.counts ≡ self.old.counts }
    {
        self.children.rotate_row(b.number(), i);
    }

    pub fn turn_ring_ends(&mut self, b: Group, i: u16)
        ensures said { (r : List ℕ) → at self.old.lists.ring_ends b ≡ ok r → (l : Labelling) (q : Pairing) (p : Progress) → put_ring_ends b (rotate i r) (whole self.old.lists l q p) ≡ ok (whole self.new.lists l q p) }
        ensures size { self.new.nodes ≡ self.old.nodes }
        ensures others { ButRingEnds self.old self.new }
        ensures counts { self.new.link_counts ≡ self.old.link_counts }
    {
        self.ring_ends.rotate_row(b.number(), i);
    }
}

// Two methods, since the definition has two lists: one with a flag would be no shorter.
impl<'a> Lists<'a> {
    // The children of group b, with place i first; they stay as they are where there is no such place.
    pub fn turn_children(&mut self, b: Group, i: u16)
        ensures said { (r : List ℕ) → at self.old.forest.lists.children b ≡ ok r → (p : Progress) → put_children b (rotate i r) (state_of self.old p) ≡ ok (state_of self.new p) }
        ensures size { sized self.new ≡ sized self.old }
        ensures others { InForest self.old self.new × ButChildren self.old.forest self.new.forest }
        ensures counts { self.new.forest.counts ≡ self.old.forest.counts }
    {
        self.forest.turn_children(b, i);
    }

    // The ring ends of group b, likewise.
    pub fn turn_ring_ends(&mut self, b: Group, i: u16)
        ensures said { (r : List ℕ) → at self.old.forest.lists.ring_ends b ≡ ok r → (p : Progress) → put_ring_ends b (rotate i r) (state_of self.old p) ≡ ok (state_of self.new p) }
        ensures size { sized self.new ≡ sized self.old }
        ensures others { InForest self.old self.new × ButRingEnds self.old.forest self.new.forest }
        ensures counts { self.new.forest.link_counts ≡ self.old.forest.link_counts }
    {
        self.forest.turn_ring_ends(b, i);
    }
}
