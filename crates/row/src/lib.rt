// The row of one task, or its lateness, from the windows that it has with the tasks above it.

#![tactic(auto)]

ghost use Rattle.std.specs.Prelude.{◌≡◌, ◌+◌, ◌<◌, ◌≤◌};
ghost use Rattle.row.specs.Flat.{swept_of, steady_of, request_of};
ghost use Rattle.row.specs.Row.{completed_row, aborted_row, row, new_row};

use block::Task;
use term::Demand;
use window::Windows;

// A struct, as the definitions of rows have it; `rows` lays its numbers out.
#[derive(Clone, Copy)]
pub struct Row {
    pub first: u32,
    pub second: u32,
    pub third: u32,
}

// A task's row, or the detail of its lateness, a number, as C reads it.
pub type Judged = Result<Row, u32>;

impl Row {
    // Times have their bounds in each clause, as in `term`.
    fn of(first: u64, second: u64, third: u64) -> Row
        requires { (first < 4294967296) × (second < 4294967296) × (third < 4294967296) }
        ensures { result ≡ row first second third }
    {
        Row {
            first: first as u32,
            second: second as u32,
            third: third as u32,
        }
    }
}

// The window of the old tasks alone.
#[tactic(auto, using(term::proofs::Terms::ready_old), unfolding(crate::specs::Flat::flat_steady))]
fn steady(windows: Windows) -> Option<u64>
    ensures { result ≡ steady_of windows.entry }
{
    let d = windows.limit;
    let own = windows.demand.own;
    let demand = Demand {
        own,
        old: windows.demand.old,
        new: &[],
    };
    window::search(demand, d, own, d)
}

// The window from the request, up to the limit, of what is asked for itself, what is left then, and the new tasks.
#[tactic(auto, using(crate::proofs::Windows::request_over, term::proofs::Terms::ready_new), unfolding(crate::specs::Flat::flat_request))]
fn request(windows: Windows, left: u64, limit: u64) -> Option<u64>
    requires { (left ≤ 1966050) × (limit < 131072) }
    ensures { result ≡ request_of windows.entry left limit }
{
    let own = windows.demand.own + left;
    if limit < own {
        return None;
    }
    let demand = Demand {
        own,
        old: &[],
        new: windows.demand.new,
    };
    window::search(demand, 0, own, limit)
}

// The row of a completed task.
#[tactic(auto, using(crate::proofs::Windows::alone_row, crate::proofs::Windows::last_steady, crate::proofs::Windows::steady_within, crate::proofs::Windows::worst_within, crate::proofs::Windows::late_within), unfolding(window::specs::Phases::course_of))]
pub fn completed_row(windows: Windows) -> Judged
    ensures { result ≡ completed_row (swept_of windows.entry) (steady_of windows.entry) }
{
    let own = windows.demand.own;
    // with nothing above, every window is C
    if windows.demand.old.is_empty() && windows.demand.new.is_empty() {
        return Ok(Row::of(own, 1, own));
    }
    let found = windows.over_phases();
    match found.swept {
        // the last phase is in time as well, so 0 does not come up
        Ok(worst) => Ok(Row::of(worst.window, worst.phase, found.last.unwrap_or(0))),
        Err(x) => Err(x as u32),
    }
}

// The row of an aborted task. Late is 0, the paper's number.
#[tactic(auto, using(crate::proofs::Windows::steady_within))]
pub fn aborted_row(windows: Windows) -> Judged
    ensures { result ≡ aborted_row (steady_of windows.entry) }
{
    let s = steady(windows).ok_or(0u32)?;
    Ok(Row::of(s, 0, s))
}

// The row of a new task i, of which the offset counts here. windows: the new tasks above it, as old ones for the steady window;
// left: what the old tasks leave at the request, with its bound, in a clause. Late in the steady window is 0, from the
// request 1.
#[tactic(auto, using(crate::proofs::Windows::steady_within, crate::proofs::Windows::request_within))]
pub fn new_row(windows: Windows, left: u64, i: Task) -> Judged
    requires { left ≤ 1966050 }
    ensures { result ≡ new_row i (steady_of windows.entry) (request_of windows.entry left (i.offset + windows.entry.limit)) }
{
    let y = u64::from(i.offset);
    let s = steady(windows).ok_or(0u32)?;
    let w = request(windows, left, y + windows.limit).ok_or(1u32)?;
    Ok(Row::of(s.max(w.saturating_sub(y)), w, s))
}
