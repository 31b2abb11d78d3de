// One record taken into a draft: what each kind says, and the order of the complaints.
ghost use Rattle.std.specs.Prelude.{◌≡◌, ◌+◌, ◌<◌, length, OnOk, OnErr};
ghost use Rattle.records.specs.Site.{body as body_of};
ghost use Rattle.records.specs.Site.{take_nodes, take_flag, take_budget, take_edge, take_time, take_join, take_go, take_body, judge};
ghost use Rattle.records.specs.View.{kind_view, view_of, Takes, Leaves, Same};

use crate::complaint::Complaint;
use crate::draft::Draft;
use crate::filling::MAX_NODES;
use crate::kind::Kind;
use crate::reader::Reader;

const MAX_TIME: u32 = 1000000000;

impl<'a> Reader<'a> {
    // N: node count.
    #[tactic(auto, unfolding(crate::specs::Site::take_nodes))]
    fn take_nodes(&self, d: &mut Draft) -> Result<(), Complaint>
        ensures said { Takes (take_nodes self.now.file.now (view_of self.now.place d.old)) (self.now.place + 3) d.new result }
        ensures rest { Leaves result d.old d.new }
        ensures same { Same d.old d.new }
    {
        let n = self.word(1);
        if MAX_NODES < n {
            return Err(Complaint::Nodes);
        }
        d.name_nodes(n);
        Ok(())
    }

    // C: flag, 0 or 1.
    #[tactic(auto, unfolding(crate::specs::Site::take_flag))]
    fn take_flag(&self, d: &mut Draft) -> Result<(), Complaint>
        ensures said { Takes (take_flag self.now.file.now (view_of self.now.place d.old)) (self.now.place + 2) d.new result }
        ensures rest { Leaves result d.old d.new }
        ensures same { Same d.old d.new }
    {
        let v = self.byte(1);
        if 1 < v {
            return Err(Complaint::Order);
        }
        d.read.flagged = true;
        d.read.flag = v == 1;
        Ok(())
    }

    // B: budget.
    #[tactic(auto, unfolding(crate::specs::Site::take_budget))]
    fn take_budget(&self, d: &mut Draft) -> Result<(), Complaint>
        ensures said { Takes (take_budget self.now.file.now (view_of self.now.place d.old)) (self.now.place + 5) d.new result }
        ensures rest { Leaves result d.old d.new }
        ensures same { Same d.old d.new }
    {
        d.read.budgeted = true;
        d.read.budget = self.long(1);
        Ok(())
    }

    // E: two ends, signed weight.
    #[tactic(auto, unfolding(crate::specs::Site::take_edge))]
    fn take_edge(&self, d: &mut Draft) -> Result<(), Complaint>
        ensures said { Takes (take_edge self.now.file.now (view_of self.now.place d.old)) (self.now.place + 9) d.new result }
        ensures rest { Leaves result d.old d.new }
        ensures same { Same d.old d.new }
    {
        if d.is_full() {
            return Err(Complaint::Edges);
        }
        d.push(self.word(1), self.word(3), self.signed(5));
        Ok(())
    }

    // T: node, throw time.
    #[tactic(auto, unfolding(crate::specs::Site::take_time))]
    fn take_time(&self, d: &mut Draft) -> Result<(), Complaint>
        ensures said { Takes (take_time self.now.file.now (view_of self.now.place d.old)) (self.now.place + 7) d.new result }
        ensures rest { Leaves result d.old d.new }
        ensures same { Same d.old d.new }
    {
        let v = self.word(1);
        let t = self.long(3);
        if d.read.nodes <= v {
            return Err(Complaint::Time);
        }
        if MAX_TIME < t {
            return Err(Complaint::Time);
        }
        if d.time_of(v).is_some() {
            return Err(Complaint::Time);
        }
        d.set_time(v, t);
        Ok(())
    }

    // J: two ends; an edge whose weight is the lesser of the two throw times.
    #[tactic(auto, unfolding(crate::specs::Site::take_join))]
    fn take_join(&self, d: &mut Draft) -> Result<(), Complaint>
        ensures said { Takes (take_join self.now.file.now (view_of self.now.place d.old)) (self.now.place + 5) d.new result }
        ensures rest { Leaves result d.old d.new }
        ensures same { Same d.old d.new }
    {
        if d.is_full() {
            return Err(Complaint::Edges);
        }
        let a = self.word(1);
        let b = self.word(3);
        let t = d.time_of(a).ok_or(Complaint::Time)?;
        let u = d.time_of(b).ok_or(Complaint::Time)?;
        d.push(a, b, i64::from(t.min(u)));
        Ok(())
    }

    // G: go.
    #[tactic(auto, unfolding(crate::specs::Site::take_go))]
    fn take_go(&self, d: &mut Draft) -> Result<(), Complaint>
        ensures said { Takes (take_go (view_of self.now.place d.old)) (self.now.place + 1) d.new result }
        ensures rest { Leaves result d.old d.new }
        ensures same { Same d.old d.new }
    {
        d.read.gone = true;
        Ok(())
    }

    // The body of a record that stands where it may, and is whole.
    fn take_body(&self, k: Kind, d: &mut Draft) -> Result<(), Complaint>
        ensures said { Takes (take_body (kind_view k) self.now.file.now (view_of self.now.place d.old)) (self.now.place + (1 + body_of (kind_view k))) d.new result }
        ensures rest { Leaves result d.old d.new }
        ensures same { Same d.old d.new }
    {
        match k {
            Kind::N => self.take_nodes(d),
            Kind::C => self.take_flag(d),
            Kind::B => self.take_budget(d),
            Kind::E => self.take_edge(d),
            Kind::T => self.take_time(d),
            Kind::J => self.take_join(d),
            Kind::G => self.take_go(d),
        }
    }

    // The record at its place: KIND, ORDER, CUT, the rest. Where it is taken the place moves on; where it is refused nothing changes.
    #[tactic(auto, unfolding(crate::specs::Site::judge, crate::specs::Site::judge_kind, crate::specs::Site::cut_short))]
    pub fn take(&mut self, d: &mut Draft) -> Result<(), Complaint>
        ensures said { Takes (judge self.old.file.now (view_of self.old.place d.old)) self.new.place d.new result }
        ensures file { self.new.file ≡ self.old.file }
        ensures on { OnOk result (self.old.place < self.new.place) }
        ensures stays { OnErr result (self.new.place ≡ self.old.place) }
        ensures rest { Leaves result d.old d.new }
        ensures same { Same d.old d.new }
    {
        let k = self.kind().ok_or(Complaint::Kind)?;
        if d.read.misplaces(k) {
            return Err(Complaint::Order);
        }
        let left = self.file.len() - self.place - 1;
        if left < k.body() {
            return Err(Complaint::Cut);
        }
        self.take_body(k, d)?;
        self.place += 1 + k.body();
        Ok(())
    }
}
