// Places in the ring of a group's children.
ghost use Rattle.std.specs.Prelude.{◌≡◌, ◌≤◌, ◌<◌, length};
ghost use Rattle.std.specs.Result.{IfOk};
ghost use Rattle.laws.specs.Run.{position};
ghost use Rattle.steps.specs.Ring.{around as around_of, link_end as link_end_of};
ghost use Rattle.numbers.specs.Answers.{Answers};

use numbers::faults::{Fault, read};
use numbers::{End, Group};

// The next place of len: forward from an odd start, backward from an even one; `forward` is the definition's own parameter. Place j may be
// past the last: a walk comes to it where the ring has changed.
#[tactic(auto, unfolding(steps::specs::Ring::around))]
pub fn around(forward: bool, len: u16, j: u16) -> u16
    requires { j < 65535 }
    ensures { result ≡ around_of forward len j }
{
    if forward {
        if j + 1 == len { 0 } else { j + 1 }
    } else {
        if j == 0 { len.saturating_sub(1) } else { j - 1 }
    }
}

// The ring end that is used at place i, seen in the direction of the walk: the definition's parameter as well.
#[tactic(auto, unfolding(steps::specs::Ring::link_end))]
pub fn link_end(forward: bool, ends: &[u16], i: u16) -> Result<End, Fault>
    ensures { Answers (link_end_of forward ends.now i) result }
{
    if forward {
        let p = read(ends, i)?;
        return Ok(End::of(p));
    }
    if i == 0 {
        return Err(Fault);
    }
    let p = read(ends, i - 1)?;
    Ok(End::of(p).beside())
}

// The place of t among the children.
#[tactic(auto, unfolding(laws::specs::Run::position_from))]
pub fn place_of(kids: &[u16], t: Group) -> Result<u16, Fault>
    requires { length kids.now ≤ 65535 }
    ensures said { Answers (position t kids.now) result }
    ensures near { IfOk result (λ i. i < length kids.now) }
{
    let i = kids.iter().position(|&kid| kid == t.number()).ok_or(Fault)?;
    Ok(i as u16)
}
