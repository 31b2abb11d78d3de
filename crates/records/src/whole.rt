// A whole site file, read into three lent lists.
ghost use Rattle.std.specs.Prelude.{◌≡◌, min, ◌++◌, ◌-◌, ◌≤◌, length, take, replicate};
ghost use Rattle.steps.specs.Refusals.{max_edges};
ghost use Rattle.records.specs.Site.{read_from, reached, read_records, read_site};
ghost use Rattle.records.specs.View.{view_of, Stands, Past, Same};
ghost use Rattle.records.specs.WholeView.{site_view, edge_count, ReadAs};

use crate::complaint::Complaint;
use crate::draft::{Draft, Reading};
use crate::filling::{MAX_EDGES, UNTIMED};
use crate::reader::Reader;
use crate::site::{Head, Refused};

const MAX_BYTES: usize = 65536;

impl<'a> Reader<'a> {
    // The records from its place on, one after another. Where one is refused the draft is as the last one that was taken left it.
    #[tactic(auto, using(crate::proofs::Judged::left))]
    pub fn read_on(mut self, d: &mut Draft) -> Result<Head, Refused>
        ensures said { site_view result d.new.first.now d.new.second.now d.new.weight.now ≡ read_from (length self.entry.file.now) self.entry.file.now (view_of self.entry.place d.old) }
        ensures stands { Stands (reached (length self.entry.file.now) self.entry.file.now (view_of self.entry.place d.old)) d.new }
        ensures past { Past d.old d.new }
        ensures same { Same d.old d.new }
    {
        // No `for`: each record says where the next one begins.
        while !self.at_end() {
            if let Err(what) = self.take(d) {
                return Err(Refused {
                    what,
                    place: self.place,
                });
            }
        }
        if !d.read.gone {
            return Err(Refused {
                what: Complaint::Cut,
                place: self.file.len(),
            });
        }
        Ok(Head {
            nodes: d.read.nodes,
            flag: d.read.flag,
            budget: d.read.budget_of(),
            edges: d.read.count,
        })
    }
}

// The records of a file, from its first byte on, where the lists have room.
#[tactic(auto, unfolding(crate::specs::Site::read_records))]
fn read_records(
    file: &[u8],
    first: &mut [u16],
    second: &mut [u16],
    weight: &mut [i64],
) -> Result<Head, Refused>
    requires { (max_edges ≤ length first.old) × (max_edges ≤ length second.old) × (max_edges ≤ length weight.old) }
    ensures { site_view result first.new second.new weight.new ≡ read_records file.now }
{
    let mut times = [UNTIMED; 64];
    let mut d = Draft {
        read: Reading::start(),
        first: &mut *first,
        second: &mut *second,
        weight: &mut *weight,
        times: &mut times,
    };
    Reader::open(file).read_on(&mut d)
}

// LONG, then BUFFER, then the records.
#[tactic(auto, unfolding(crate::specs::Site::read_site))]
fn read_lists(
    file: &[u8],
    first: &mut [u16],
    second: &mut [u16],
    weight: &mut [i64],
) -> Result<Head, Refused>
    ensures said { site_view result first.new second.new weight.new ≡ read_site (min (length first.old) (min (length second.old) (length weight.old))) file.now }
    ensures room { (edge_count result ≤ length first.old) × (edge_count result ≤ length second.old) × (edge_count result ≤ length weight.old) }
{
    if MAX_BYTES < file.len() {
        return Err(Refused {
            what: Complaint::Long,
            place: 0,
        });
    }
    if first.len().min(second.len().min(weight.len())) < usize::from(MAX_EDGES) {
        return Err(Refused {
            what: Complaint::Buffer,
            place: 0,
        });
    }
    read_records(file, first, second, weight)
}

// Every entry from k on becomes `zero`.
fn clear_from<T: Copy>(list: &mut [T], k: usize, zero: T)
    requires plain { T.is_infallible zero × ((y : T) → T.is_clone zero y → y ≡ zero) }
    requires within { k ≤ length list.old }
    ensures { list.new ≡ take k list.old ++ replicate (length list.old - k) zero }
{
    let (_, rest) = list.split_at_mut(k);
    rest.fill(zero);
}

// How many edges a file has; none where it is refused.
fn edge_count(site: Result<Head, Refused>) -> usize
    ensures { result ≡ edge_count site }
{
    match site {
        Ok(h) => usize::from(h.edges),
        Err(_) => 0,
    }
}

// A site file: n, flag, budget and how many edges, or a refusal with its place. The edges' first ends, second ends and weights
// stand at the front of the lent lists, and every other entry is 0; a refused file leaves them all 0.
pub fn read_site(
    file: &[u8],
    first: &mut [u16],
    second: &mut [u16],
    weight: &mut [i64],
) -> Result<Head, Refused>
    ensures { ReadAs file.now first.old second.old weight.old result first.new second.new weight.new }
{
    let site = read_lists(file, first, second, weight);
    let k = edge_count(site);
    clear_from(first, k, 0);
    clear_from(second, k, 0);
    clear_from(weight, k, 0);
    site
}
