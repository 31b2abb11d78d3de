// Lent lists cleared over their whole length. Two named functions over std's `fill`: what a cleared entry is stands once for all calls.
#![tactic(auto)]

ghost use Rattle.std.specs.Prelude.{◌≡◌, pos, length, replicate};
ghost use Rattle.matching.specs.Graph.{missing};

use numbers::MISSING;

// A list of mates or parents: all missing.
pub fn clear(list: &mut [u16])
    ensures { list.new ≡ replicate (length list.old) missing }
{
    list.fill(MISSING);
}

// A list of duals: all 0.
pub fn clear_duals(duals: &mut [i64])
    ensures { duals.new ≡ replicate (length duals.old) (pos 0) }
{
    duals.fill(0);
}
