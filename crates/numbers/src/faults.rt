// A read, a store or an assertion that fails is a fault.
ghost use Rattle.std.specs.Prelude.{◌≡◌, ◌<◌, length, set};
ghost use Rattle.std.specs.Result.{IfOk};
ghost use Rattle.laws.specs.Run.{at, put, must as must_of};
ghost use Rattle.steps.specs.Ends.{present as present_of};
ghost use Rattle.numbers.specs.Answers.{Answers, Agrees};

use crate::MISSING;

#[derive(Clone, Copy, Debug, PartialEq, Eq)]
pub struct Fault;

// Entry i of a list.
#[tactic(auto, using(crate::proofs::Stored::entries))]
pub fn read<T: Copy>(list: &[T], i: u16) -> Result<T, Fault>
    ensures said { Answers (at list.now i) result }
    ensures inside { IfOk result (λ x. i < length list.now) }
{
    let k = i as usize;
    if k < list.len() {
        Ok(list[k])
    } else {
        Err(Fault)
    }
}

// Entry i of a list becomes x; nothing changes where there is none.
#[tactic(auto, using(crate::proofs::Stored::entries))]
pub fn store<T: Copy>(list: &mut [T], i: u16, x: T) -> Result<(), Fault>
    ensures said { Agrees (put list.old i x) result list.new }
    ensures told { list.new ≡ set list.old i x }
{
    let k = i as usize;
    if k < list.len() {
        list[k] = x;
        Ok(())
    } else {
        Err(Fault)
    }
}

// An assertion.
pub fn must(holds: bool) -> Result<(), Fault>
    ensures { Agrees (must_of holds) result tt }
{
    if holds { Ok(()) } else { Err(Fault) }
}

// A number that is to be there.
pub fn present(x: u16) -> Result<u16, Fault>
    ensures { Answers (present_of x) result }
{
    if x == MISSING { Err(Fault) } else { Ok(x) }
}
