// What has been read so far: what the records said, and the lent lists that their edges and throw times go into.
ghost use Rattle.std.specs.Prelude.{◌≤◌, length};
ghost use Rattle.steps.specs.Refusals.{max_nodes, max_edges};

// What N, G, C and B said, and how many edges stand in the lent lists. Flags beside their values, as in the definition's Head:
// `take` promises what it does for every Reading, also where a value is set and its flag is not, which an Option cannot hold.
#[derive(Clone, Copy, Debug, PartialEq, Eq)]
pub struct Reading {
    pub opened: bool,
    pub gone: bool,
    pub flagged: bool,
    pub budgeted: bool,
    pub nodes: u16,
    pub flag: bool,
    pub budget: u32,
    pub count: u16,
    ghost few_nodes: { nodes ≤ max_nodes },
    ghost few_edges: { count ≤ max_edges },
}

// Lent lists with a count, since nothing here has a heap. Its fields are open: who lends the lists learns what they hold afterwards.
#[derive(Drop)]
pub struct Draft<'a> {
    pub read: Reading,
    pub first: &'a mut [u16],
    pub second: &'a mut [u16],
    pub weight: &'a mut [i64],
    pub times: &'a mut [u32],
    ghost room_first: { max_edges ≤ length first.now },
    ghost room_second: { max_edges ≤ length second.now },
    ghost room_weight: { max_edges ≤ length weight.now },
    ghost room_times: { max_nodes ≤ length times.now },
}
