// The rules of one task, and the refusal that every check gives. The definitions that the contracts cite stand in the specs of block.

#![tactic(auto)]

ghost use Rattle.std.specs.Prelude.{Err, ℕ, ◌≡◌, ◌<◌, min};
ghost use Rattle.base.specs.Lists.{up_to};
ghost use Rattle.block.specs.Answers.{Verdict, number_of, refusal, refuse, first_of};
ghost use Rattle.block.specs.Checks.{kind_on, task_checks};

use block::{Answer, Code, NO_SIDE, Task, Verdict};

// The refusal of a code, by its number: it names the side only if it is 0 or 1. Side and place come apart, as in the definitions.
pub fn refused(code: u32, side: u32, place: u32) -> Verdict
    ensures { result ≡ Err (refusal code side place) }
{
    Err(Answer {
        code,
        side: side.min(NO_SIDE),
        record: place,
        detail: 0,
    })
}

// A check: it refuses where something is wrong.
pub fn refuse(wrong: bool, code: Code, side: u32, place: u32) -> Verdict
    ensures { result ≡ refuse wrong (refusal (number_of code) side place) }
{
    if wrong {
        return refused(code as u32, side, place);
    }
    Ok(())
}

// By the number that a record has for its kind, which may be that of no kind (decision B1).
#[tactic(auto, unfolding(block::specs::Checks::kind_on))]
fn kind_on(side: u32, kind: u8) -> bool
    ensures { result ≡ kind_on side kind }
{
    if side == 0 { kind < 2 } else { kind == 2 }
}

// The rules of a task of its own, in the paper's order.
#[tactic(auto, unfolding(block::specs::Answers::first_of, block::specs::Checks::task_checks))]
pub fn check_task(side: u32, k: u32, x: Task) -> Verdict
    ensures { result ≡ first_of (task_checks side k x) }
{
    refuse(!kind_on(side, x.kind), Code::Rule, side, k)?;
    refuse(x.period == 0, Code::Rule, side, k)?;
    refuse(
        x.execution == 0 || x.deadline < x.execution,
        Code::Rule,
        side,
        k,
    )?;
    refuse(x.period < x.deadline, Code::Rule, side, k)?;
    refuse(side == 0 && x.offset != 0, Code::Rule, side, k)
}

// Of the checks 0, 1, .. , n - 1 the first that refuses decides.
pub fn first_refusal<F: Fn(usize) -> Verdict>(n: usize, check: F) -> Verdict
    requires { (k : ℕ) → k < n → F.pre check k }
    ensures { (f : ℕ → Verdict) → ((k : ℕ) (v : Verdict) → k < n → F.post check k v → v ≡ f k) → result ≡ first_of (up_to f n) }
{
    for k in 0..n {
        check(k)?;
    }
    Ok(())
}
