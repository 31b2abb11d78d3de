// The neighbours of each node as a table, made once a call: the far ends at node v, in edge order, are far[offsets[v]] to the one
// before far[offsets[v + 1]]. The ends at each node are counted, the counts summed, and the ends put in their places, last first.
ghost use Rattle.std.specs.Prelude.{List, ◌≡◌, ◌++◌, ℕ, ◌+◌, ◌<◌, ◌≤◌, length, drop};
ghost use Rattle.edges.specs.Neighbours.{Neighbours, Begun, Counted, Summed, sum_to, below, offsets_of, far_of};

use numbers::End;

// How many ends are at each node.
fn count_ends(ends: &[u16], n: u16, counts: &mut [u16])
    requires starts { length counts.old ≡ n + 1 }
    requires few { length ends.now ≤ 32768 }
    ensures { Counted n ends.now counts.new }
{
    counts.fill(0);
    for &v in ends {
        if v < n {
            counts[v as usize] += 1;
        }
    }
}

// Where each node's places end.
fn sum_up(offsets: &mut [u16], n: u16)
    requires starts { length offsets.old ≡ n + 1 }
    requires few { sum_to offsets.old n ≤ 32768 }
    ensures { Summed n offsets.old offsets.new }
{
    let end = n as usize;
    let mut total: u16 = 0;
    // By place: how far the sum goes is told by it, and one place more is written after the others.
    for v in 0..end {
        total += offsets[v];
        offsets[v] = total;
    }
    offsets[end] = total;
}

// Each end's far end goes before those that its node has so far.
fn place_ends(ends: &[u16], n: u16, offsets: &mut [u16], far: &mut [u16])
    requires starts { length offsets.old ≡ n + 1 }
    requires few { length ends.now ≤ 32768 }
    requires same { length far.old ≡ length ends.now }
    requires summed { (counts : List ℕ) × Counted n ends.now counts × Summed n counts offsets.old }
    ensures table { Neighbours n ends.now offsets.new far.new }
    ensures begun { Begun n ends.now offsets.new far.old far.new }
{
    for p in (0..ends.len()).rev() {
        let v = ends[p];
        if v < n {
            let k = offsets[v as usize] - 1;
            offsets[v as usize] = k;
            far[k as usize] = End::of(p as u16).beside().number();
        }
    }
}

// The table of n nodes: offsets has n + 1 entries, far one for each end. An end at node n or more is in no row: so many places at the end
// of far stay as they were, all of them where n is 0. The two lists by themselves: they are a `Graph`'s once the table is made.
pub fn neighbours(ends: &[u16], n: u16, offsets: &mut [u16], far: &mut [u16])
    requires starts { length offsets.old ≡ n + 1 }
    requires few { length ends.now ≤ 32768 }
    requires same { length far.old ≡ length ends.now }
    ensures begins { offsets.new ≡ offsets_of n ends.now }
    ensures rows { far.new ≡ far_of n ends.now ++ drop (below n ends.now) far.old }
    ensures table { Neighbours n ends.now offsets.new far.new }
{
    count_ends(ends, n, offsets);
    sum_up(offsets, n);
    place_ends(ends, n, offsets, far);
}
