// The kind of a task, the search for the least closing t, and the worst window over all phases. Times have
// their bounds in each clause, as in `term`.

#![tactic(auto)]

ghost use Rattle.std.specs.Prelude.{◌≡◌, ◌+◌, ◌<◌, ◌≤◌, ◌-◌, min, max, cond, ltb};
ghost use Rattle.base.specs.Search.{window_of, Climbs};
ghost use Rattle.window.specs.Order.{kind_of};
ghost use Rattle.window.specs.Worst.{take_of, sweep};
ghost use Rattle.window.specs.Phases.{asks, window_at, course_of, Begun, Kept, Stepped};
ghost use Rattle.window.specs.Behind.{Bar, Held, Turned, Tells};

use block::{Kind, Task};
use term::Demand;

// The largest window so far, with its smallest phase.
#[derive(Clone, Copy)]
pub struct Worst {
    pub window: u64,
    pub phase: u64,
}

// What all phases gave, the worst window or the first late phase; and the window at the last one, since a row has both.
#[derive(Clone, Copy)]
pub struct Course {
    pub swept: Result<Worst, u64>,
    pub last: Option<u64>,
}

// The last phase that was searched, how far its window reached, and its demand at the request itself. All 0 where none was
// searched: of zeros `start_at` finds that nothing reached behind a request.
#[derive(Clone, Copy)]
pub struct Searched {
    pub phase: u64,
    pub reach: u64,
    pub base: u64,
}

// Between phases: the worst so far, where searches may start, a time at which the phase just seen closes, and the last search.
#[derive(Clone, Copy)]
pub struct State {
    pub best: Worst,
    pub start: u64,
    pub shut: u64,
    pub last: Searched,
}

// Between phases that go by backwards: the worst so far, and the last search. `State` has two fields more, and no use for one in the other.
#[derive(Clone, Copy)]
pub struct Back {
    pub best: Worst,
    pub last: Searched,
}

// The phases of one task's windows, from 1 to the limit.
#[derive(Clone, Copy)]
pub struct Windows<'a> {
    pub demand: Demand<'a>,
    pub limit: u64,
    pub ghost some: { 1 ≤ demand.own },
    pub ghost fits: { demand.own ≤ limit },
    pub ghost few: { limit < 65536 },
}

// The kind of a task, by its number. A function, since neither type is of this crate, so that `From` can't be.
pub fn kind_of(x: Task) -> Kind
    ensures { result ≡ kind_of x }
{
    match x.kind {
        0 => Kind::Completed,
        1 => Kind::Aborted,
        _ => Kind::New,
    }
}

// The least closing t up to the limit, the request coming at x, where none below `start` closes. The loop that yields by `break`
// is the form that document 01 asks for.
#[tactic(auto, using(term::proofs::Terms::flat_rises))]
pub fn search<'a>(demand: Demand<'a>, x: u64, start: u64, limit: u64) -> Option<u64>
    requires small { limit < 131072 }
    requires climbs { Climbs (asks demand x) limit start }
    ensures { result ≡ window_of (asks demand.entry x) limit }
{
    let mut t = start;
    loop {
        let d = demand.at(x, t);
        if d == t {
            break Some(t);
        }
        if limit < d {
            break None;
        }
        t = d;
    }
}

impl Worst {
    #[tactic(auto, unfolding(crate::specs::Worst::take_of))]
    pub fn take(self, window: u64, phase: u64) -> Worst
        ensures { result ≡ take_of self window phase }
    {
        self.take_over(self.window, window, phase)
    }

    // A window is kept where it passes the bar.
    fn take_over(self, bar: u64, window: u64, phase: u64) -> Worst
        ensures { result ≡ cond (ltb bar window) (record { window = window; phase = phase }) self }
    {
        if bar < window {
            Worst { window, phase }
        } else {
            self
        }
    }

    // The largest window that changes nothing at an earlier phase: of equal ones the smaller phase counts.
    fn bar(self) -> u64
        requires { 1 ≤ self.window }
        ensures { Bar self result }
    {
        if 1 < self.phase {
            self.window - 1
        } else {
            self.window
        }
    }
}

impl State {
    // Where the search at x may start: as far behind the request as the last window, if the old tasks have since asked for all
    // the time that went by.
    fn start_at(self, x: u64, a: u64, limit: u64) -> u64
        requires { (self.last.phase < x) × (x ≤ limit) × (self.last.reach ≤ limit) × (limit < 65536) }
        ensures { Begun self x a limit result }
    {
        let Searched { phase, reach, base } = self.last;
        let gone = x - phase;
        if reach <= phase || base < x || a.saturating_sub(base) < gone {
            return self.start;
        }
        self.start.max(limit.min(reach + gone))
    }
}

impl<'a> Windows<'a> {
    // One phase: it brings nothing where it closes at the worst so far, else its window is searched for.
    #[tactic(auto, unfolding(crate::specs::Phases::Stepped, crate::specs::Phases::window_at))]
    fn see(self, s: State, x: u64) -> Option<State>
        requires within { x ≤ self.limit }
        requires kept { Kept (asks self.demand) self.demand.own self.limit x s }
        ensures { Stepped (asks self.entry.demand) self.entry.demand.own self.entry.limit x s result }
    {
        let w = s.best.window;
        if self.demand.at(x, w) <= w {
            return Some(State { shut: w, ..s });
        }
        let a = self.demand.at(x, x);
        let t = search(self.demand, x, s.start_at(x, a, self.limit), self.limit)?;
        Some(State {
            best: s.best.take(t, x),
            start: s.start.max(t.min(x + 1)),
            shut: t,
            last: Searched {
                phase: x,
                reach: t,
                base: a,
            },
        })
    }

    // One phase, backwards: it brings nothing where it closes at the bar, or where the old tasks ask for too little before it to
    // reach as far behind the request as the last window; else its window is searched for from there.
    #[tactic(auto, unfolding(crate::specs::Behind::Turned))]
    fn look(self, s: Back, x: u64) -> Option<Back>
        requires some { 1 ≤ x }
        requires held { Held (asks self.demand) self.limit (x + 1) s }
        ensures { Turned (asks self.entry.demand) self.entry.limit x s result }
    {
        let bar = s.best.bar();
        if x == 1 || self.demand.at(x, bar) <= bar {
            return Some(s);
        }
        let a = self.demand.at(x, x);
        let gone = s.last.phase - x;
        if gone <= s.last.base.saturating_sub(a) {
            return Some(s);
        }
        let t = search(self.demand, x, s.last.reach - gone, self.limit)?;
        Some(Back {
            best: s.best.take_over(bar, t, x),
            last: Searched {
                phase: x,
                reach: t,
                base: a,
            },
        })
    }

    // Backwards from the window at the limit, if that at 1 closes as well, by the phases at which the old tasks grow: each search
    // starts where the last one ended.
    #[tactic(auto, using(term::proofs::Terms::flat_least, term::proofs::Terms::phase_some, term::proofs::Terms::phase_by), unfolding(crate::specs::Behind::Tells))]
    fn backwards(self, last: Option<u64>) -> Option<Worst>
        requires { last ≡ window_at (asks self.demand) self.limit self.limit }
        ensures { Tells (window_at (asks self.entry.demand) self.entry.limit) self.entry.limit result }
    {
        let settled = last?;
        let first = search(self.demand, 1, self.demand.own, self.limit)?;
        let one = Worst {
            window: first,
            phase: 1,
        };
        let mut s = Back {
            best: one.take(settled, settled),
            last: Searched {
                phase: settled,
                reach: settled,
                base: settled,
            },
        };
        let mut x = settled;
        while 1 < x {
            x = self.demand.prev_phase(x - 2);
            s = self.look(s, x)?;
        }
        Some(s.best)
    }

    // The same forwards, from each phase to the next at which the old tasks grow: it finds the first late phase, but may search far
    // at every phase.
    #[tactic(auto, using(crate::proofs::Phases::phase_later))]
    fn forwards(self) -> Result<Worst, u64>
        ensures { result ≡ sweep (window_at (asks self.entry.demand) self.entry.limit) self.entry.limit }
    {
        let mut s = State {
            best: Worst {
                window: 0,
                phase: 0,
            },
            start: self.demand.own,
            shut: 0,
            last: Searched {
                phase: 0,
                reach: 0,
                base: 0,
            },
        };
        let mut x = 1;
        while x <= self.limit {
            s = self.see(s, x).ok_or(x)?;
            if s.shut <= x {
                return Ok(s.best);
            }
            x = self.demand.next_phase(x, self.limit);
        }
        Ok(s.best)
    }

    // The worst window over all phases with its smallest phase, or the first late phase; and the window at the limit.
    #[tactic(auto, using(term::proofs::Terms::flat_least), unfolding(crate::specs::Phases::window_at, crate::specs::Phases::course_of, crate::specs::Behind::Tells))]
    pub fn over_phases(self) -> Course
        ensures { result ≡ course_of (window_at (asks self.entry.demand) self.entry.limit) self.entry.limit }
    {
        let last = search(self.demand, self.limit, self.demand.own, self.limit);
        let swept = match self.backwards(last) {
            Some(worst) => Ok(worst),
            None => self.forwards(),
        };
        Course { swept, last }
    }
}
