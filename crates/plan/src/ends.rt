// The list of ends that a graph reads.
ghost use Rattle.std.specs.Prelude.{◌≡◌, List, ◌*◌, ◌≤◌, ℤ, length};
ghost use Rattle.matching.specs.Graph.{edges_from};
ghost use Rattle.edges.specs.Views.{edges_over};

// For each edge its first node and then its second.
pub(crate) fn lay_ends(first: &[u16], second: &[u16], ends: &mut [u16])
    requires few { length first.now ≤ 2048 }
    requires seconds { length second.now ≡ length first.now }
    requires room { length ends.old ≡ 2 * length first.now }
    ensures { (weight : List ℤ) → length weight ≡ length first.now → edges_over ends.new weight ≡ edges_from first.now second.now weight }
{
    // Three lists at one place: writing through an iterator would tell nothing of the entries.
    for e in 0..first.len() {
        ends[2 * e] = first[e];
        ends[2 * e + 1] = second[e];
    }
}
