// What is asked of a plan call that is not refused.
ghost use Rattle.std.specs.Prelude.{◌≡◌, ◌<◌, ◌≤◌, length};
ghost use Rattle.certificate.specs.Lists.{Known, Weighed};

#[derive(Clone, Copy)]
pub(crate) struct Request<'a> {
    pub(crate) n: u16,
    pub(crate) first: &'a [u16],
    pub(crate) second: &'a [u16],
    pub(crate) weight: &'a [i64],
    pub(crate) flag: bool,
    pub(crate) budget: u32,
    ghost known: { Known n first.now second.now },
    ghost weighed: { Weighed first.now weight.now },
    ghost some_edge: { 0 < length first.now },
}

impl<'a> Request<'a> {
    // How many edges there are.
    pub(crate) fn count(&self) -> usize
        ensures count { result ≡ length self.now.first.now }
        ensures few { result ≤ 2048 }
        ensures seconds { length self.now.second.now ≡ length self.now.first.now }
        ensures weights { length self.now.weight.now ≡ length self.now.first.now }
    {
        self.first.len()
    }
}
