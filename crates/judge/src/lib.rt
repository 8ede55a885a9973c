// The row of one task, or its lateness, from the rolls of both tables.

#![tactic(auto)]

ghost use Rattle.std.specs.Prelude.{◌≡◌, ◌≤◌};
ghost use Rattle.term.specs.Terms.{Ready};
ghost use Rattle.block.specs.declared.Kind.TheVariants.{Completed, Aborted, New as Entering};
ghost use Rattle.window.specs.Order.{kind_of};
ghost use Rattle.window.specs.Demand.{own_time};
ghost use Rattle.above.specs.Roll.{Sound, whole_of, new_of};
ghost use Rattle.judge.specs.From.{Rowed};

use above::Rolled;
use block::{Kind, MOST_TASKS, Task};
use row::Judged;
use term::{Demand, Jobs, New, Old};
use window::Windows;

// Room for the terms of one row, of tasks before the request and after it.
#[derive(Clone, Copy)]
pub struct Room {
    pub before: [Old; MOST_TASKS],
    pub after: [New; MOST_TASKS],
}

// A task that is to be judged, with the rolls of both tables.
#[derive(Clone, Copy)]
pub struct Judging<'a> {
    pub old: &'a [Rolled],
    pub new: &'a [Rolled],
    pub task: Task,
    pub ghost sound_old: { Sound old.now },
    pub ghost sound_new: { Sound new.now },
    pub ghost some: { 1 ≤ own_time task },
    pub ghost fits: { own_time task ≤ task.deadline },
}

// A task in whole jobs.
fn whole(r: Rolled) -> Old
    ensures { result ≡ whole_of r }
{
    Old {
        jobs: r.old.jobs,
        cut: false,
    }
}

// A new task, its first job at its offset.
fn from_offset(r: Rolled) -> New
    ensures { result ≡ new_of r }
{
    New {
        jobs: r.old.jobs,
        offset: r.offset,
    }
}

impl Room {
    // Memory is fixed, so each place is filled.
    pub const EMPTY: Room = Room {
        before: [Old {
            jobs: Jobs::NONE,
            cut: false,
        }; MOST_TASKS],
        after: [New {
            jobs: Jobs::NONE,
            offset: 0,
        }; MOST_TASKS],
    };
}

impl<'a> Judging<'a> {
    // Its windows, with these tasks above it.
    fn windows<'t>(self, old: &'t [Old], new: &'t [New]) -> Windows<'t>
        requires { Ready old.now new.now }
        ensures { (result.demand.own ≡ own_time self.entry.task) × (result.demand.old.now ≡ old.now) × (result.demand.new.now ≡ new.now) × (result.limit ≡ self.entry.task.deadline) }
    {
        Windows {
            demand: Demand {
                own: above::own_time(self.task),
                old,
                new,
            },
            limit: u64::from(self.task.deadline),
        }
    }

    // The row of a completed task.
    fn completed(self, room: &mut Room) -> Judged
        ensures { Rowed Completed self.entry.old.now self.entry.new.now self.entry.task room.old room.new result }
    {
        let p = above::rank_of(self.task);
        let n = above::gather(&mut room.before, self.old, p, |r| r.old);
        let k = above::gather(&mut room.after, self.new, p, from_offset);
        row::completed_row(self.windows(&room.before[..n], &room.after[..k]))
    }

    // The row of an aborted task.
    fn aborted(self, room: &mut Room) -> Judged
        ensures { Rowed Aborted self.entry.old.now self.entry.new.now self.entry.task room.old room.new result }
    {
        let p = above::rank_of(self.task);
        let n = above::gather(&mut room.before, self.old, p, whole);
        row::aborted_row(self.windows(&room.before[..n], &[]))
    }

    // The row of a new task. Beside `completed` and not one with it: it gathers other terms from another roll.
    fn entering(self, room: &mut Room) -> Judged
        ensures { Rowed Entering self.entry.old.now self.entry.new.now self.entry.task room.old room.new result }
    {
        let p = above::rank_of(self.task);
        let left = above::left(self.old, p);
        let n = above::gather(&mut room.before, self.new, p, whole);
        let k = above::gather(&mut room.after, self.new, p, from_offset);
        let windows = self.windows(&room.before[..n], &room.after[..k]);
        row::new_row(windows, left, self.task)
    }

    // Its row, by its kind.
    pub fn row_of(self, room: &mut Room) -> Judged
        ensures { Rowed (kind_of self.entry.task) self.entry.old.now self.entry.new.now self.entry.task room.old room.new result }
    {
        match window::kind_of(self.task) {
            Kind::Completed => self.completed(room),
            Kind::Aborted => self.aborted(room),
            Kind::New => self.entering(room),
        }
    }
}
