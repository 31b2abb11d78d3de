// A site as it is planned: its nodes, its edges in three lists of one length, flag and budget.
ghost use Rattle.std.specs.Prelude.{◌≡◌, ◌≤◌, length};

// Three lists beside each other, as the plan call takes them.
#[derive(Clone, Copy)]
pub(crate) struct Site<'a> {
    pub n: u16,
    pub first: &'a [u16],
    pub second: &'a [u16],
    pub weight: &'a [i64],
    pub flag: bool,
    pub budget: u32,
    ghost few: { n ≤ 64 },
    ghost seconds: { length second.now ≡ length first.now },
    ghost weights: { length weight.now ≡ length first.now },
}
