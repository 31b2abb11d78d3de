// The nodes' duals.
ghost use Rattle.std.specs.Prelude.{◌≡◌, take};
ghost use Rattle.numbers.specs.Near.{Near};

use crate::lists::Lists;
use crate::pairing::Pairing;

impl<'a> Pairing<'a> {
    pub fn node_duals(&self) -> &[i64]
        ensures said { result.now ≡ take self.now.nodes self.now.lists.duals }
        ensures near { Near 4503599627370496 result.now }
    {
        &self.duals[..self.n as usize]
    }
}

impl<'a> Lists<'a> {
    pub fn node_duals(&self) -> &[i64]
        ensures said { result.now ≡ take self.now.labels.size.nodes self.now.pairing.lists.duals }
        ensures near { Near 4503599627370496 result.now }
    {
        self.pairing.node_duals()
    }
}
