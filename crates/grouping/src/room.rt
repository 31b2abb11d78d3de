// The lists that are lent for the adding of groups: the two paths, the links and the nodes of a group.
ghost use Rattle.std.specs.Prelude.{◌≡◌, ◌*◌, ◌≤◌, length};
ghost use Rattle.grouping.specs.Rooms.{RoomFits};

use crate::links::Links;
use crate::path::Path;
use state::pools::Stack;

#[derive(Drop)]
pub struct Room<'a> {
    pub ring: Path<'a>,
    pub other: Path<'a>,
    pub links: Links<'a>,
    pub nodes: Stack<'a>,
}

impl<'a> Room<'a> {
    // Cut from one list, which may hold anything.
    pub fn new(n: u16, list: &'a mut [u16]) -> Room<'a>
        requires { (n ≤ 512) × (length list.old ≡ 14 * n) }
        ensures { RoomFits n result }
    {
        let k = n as usize;
        let (kids, rest) = list.split_at_mut(2 * k);
        let (ends, rest) = rest.split_at_mut(2 * k);
        let (other_kids, rest) = rest.split_at_mut(2 * k);
        let (other_ends, rest) = rest.split_at_mut(2 * k);
        let (nodes, rest) = rest.split_at_mut(2 * k);
        let (seat, rest) = rest.split_at_mut(2 * k);
        let (edges, towards) = rest.split_at_mut(k);
        Room {
            ring: Path::new(kids, ends),
            other: Path::new(other_kids, other_ends),
            links: Links::new(n, edges, towards, seat),
            nodes: Stack::new(nodes, 0),
        }
    }
}
