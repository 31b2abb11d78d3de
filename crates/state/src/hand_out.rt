// The lists of the certificate are copied out: mates, duals, parents.
ghost use Rattle.std.specs.Prelude.{◌≡◌, ◌*◌, length};

use crate::forest::Forest;
use crate::lists::Lists;
use crate::pairing::Pairing;
use crate::pools::copy;

impl<'a> Forest<'a> {
    pub fn copy_parents(&self, to: &mut [u16])
        requires { length to.old ≡ 2 * self.now.nodes }
        ensures { to.new ≡ self.now.lists.parents }
    {
        copy(self.parents, to);
    }
}

impl<'a> Pairing<'a> {
    pub fn copy_mates(&self, to: &mut [u16])
        requires { length to.old ≡ self.now.nodes }
        ensures { to.new ≡ self.now.lists.mates }
    {
        copy(self.mates, to);
    }

    pub fn copy_duals(&self, to: &mut [i64])
        requires { length to.old ≡ 2 * self.now.nodes }
        ensures { to.new ≡ self.now.lists.duals }
    {
        copy(self.duals, to);
    }
}

impl<'a> Lists<'a> {
    pub fn hand_out(&self, mates: &mut [u16], duals: &mut [i64], parents: &mut [u16])
        requires mates { length mates.old ≡ self.now.labels.size.nodes }
        requires duals { length duals.old ≡ 2 * self.now.labels.size.nodes }
        requires parents { length parents.old ≡ 2 * self.now.labels.size.nodes }
        ensures mates { mates.new ≡ self.now.pairing.lists.mates }
        ensures duals { duals.new ≡ self.now.pairing.lists.duals }
        ensures parents { parents.new ≡ self.now.forest.lists.parents }
    {
        self.pairing.copy_mates(mates);
        self.pairing.copy_duals(duals);
        self.forest.copy_parents(parents);
    }
}
