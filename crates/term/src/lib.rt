// What the tasks above one ask for, the demand that comes of it, and the next phase at which it grows. Divides by reciprocals,
// knows no table. Times have their bounds in each clause: a type of their own would be unwrapped at every sum.

#![tactic(auto)]

ghost use Rattle.std.specs.Prelude.{◌≡◌, ◌/◌, ◌%◌, ◌<◌, ◌≤◌, All, length};
ghost use Rattle.base.specs.Numbers.{jobs_in, cut_in};
ghost use Rattle.term.specs.Terms.{Good, Ready, before, after, old_sum, new_sum, flat_demand, grows_by, next_of, next_phase, prev_of, prev_phase};

// Jobs of `execution` ticks, `period` ticks apart; recip is the period's reciprocal. That it is stands in clauses and in `Demand`, not here:
// definitions make jobs of any task.
#[derive(Clone, Copy)]
pub struct Jobs {
    pub recip: u64,
    pub period: u64,
    pub execution: u64,
}

// What an old task above asks for. cut: its last job is cut off at the request.
#[derive(Clone, Copy)]
pub struct Old {
    pub jobs: Jobs,
    pub cut: bool,
}

// What a new task above asks for: its first job comes `offset` ticks after the request.
#[derive(Clone, Copy)]
pub struct New {
    pub jobs: Jobs,
    pub offset: u64,
}

// What one task's windows are made of: what it asks for itself, and the tasks above it.
#[derive(Clone, Copy)]
pub struct Demand<'a> {
    pub own: u64,
    pub old: &'a [Old],
    pub new: &'a [New],
    pub ghost ready: { Ready old.now new.now },
    pub ghost small: { own < 2097152 },
}

impl Jobs {
    // What an array of terms holds where there is none.
    pub const NONE: Jobs = Jobs {
        recip: 0,
        period: 0,
        execution: 0,
    };

    // n / period, by the period's reciprocal
    #[tactic(auto, using(crate::proofs::Shares::product_fits, crate::proofs::Shares::quotient_is))]
    fn whole(self, n: u64) -> u64
        requires { Good self × (n < 262144) }
        ensures { result ≡ n / self.period }
    {
        n * self.recip / 1099511627776
    }

    // n % period
    #[tactic(auto, using(crate::proofs::Shares::rest_is))]
    fn rest(self, n: u64) -> u64
        requires { Good self × (n < 262144) }
        ensures { result ≡ n % self.period }
    {
        n - self.whole(n) * self.period
    }

    // Every job released in t ticks, whole.
    #[tactic(auto, using(crate::proofs::Shares::jobs_is, base::proofs::Numbers::jobs_small))]
    fn jobs_in(self, t: u64) -> u64
        requires { Good self × (t < 131072) }
        ensures { (result ≡ jobs_in self.period self.execution t) × (result < 34359738368) }
    {
        let up = t + (self.period - 1);
        self.whole(up) * self.execution
    }

    // The same, the last job cut off after m ticks.
    #[tactic(auto, using(crate::proofs::Shares::cut_is, base::proofs::Numbers::cut_small))]
    fn cut_in(self, m: u64) -> u64
        requires { Good self × (m < 131072) }
        ensures { (result ≡ cut_in self.period self.execution m) × (result < 34359738368) }
    {
        let q = self.whole(m);
        let rest = m - q * self.period;
        q * self.execution + rest.min(self.execution)
    }
}

impl Old {
    #[tactic(auto, unfolding(crate::specs::Terms::before))]
    fn before(self, m: u64) -> u64
        requires { Good self.jobs × (m < 131072) }
        ensures { (result ≡ before m self) × (result < 34359738368) }
    {
        if !self.cut {
            return self.jobs.jobs_in(m);
        }
        self.jobs.cut_in(m)
    }

    #[tactic(auto, unfolding(crate::specs::Terms::grows_by))]
    fn grows_by(self) -> u64
        ensures { result ≡ grows_by self }
    {
        if self.cut { self.jobs.execution } else { 1 }
    }

    // The next phase after x at which the task grows.
    #[tactic(auto, unfolding(crate::specs::Terms::next_of))]
    fn next_of(self, x: u64) -> u64
        requires { Good self.jobs × (x < 131072) }
        ensures { result ≡ next_of x self }
    {
        let r = self.jobs.rest(x);
        if r < self.grows_by() {
            return x + 1;
        }
        x - r + self.jobs.period + 1
    }

    // The last phase up to m + 1 at which the task grows.
    #[tactic(auto, unfolding(crate::specs::Terms::prev_of))]
    fn prev_of(self, m: u64) -> u64
        requires { Good self.jobs × (m < 131072) }
        ensures { result ≡ prev_of m self }
    {
        let r = self.jobs.rest(m);
        let g = self.grows_by();
        if r < g {
            return m + 1;
        }
        m - r + g
    }
}

impl New {
    #[tactic(auto, unfolding(crate::specs::Terms::after))]
    fn after(self, u: u64) -> u64
        requires { Good self.jobs × (u < 131072) }
        ensures { (result ≡ after u self) × (result < 34359738368) }
    {
        self.jobs.jobs_in(u.saturating_sub(self.offset))
    }
}

#[tactic(auto, using(base::proofs::Sums::list_more), unfolding(base::specs::Sums::sum_of))]
fn old_sum(old: &[Old], m: u64) -> u64
    requires { (length old.now ≤ 30) × All (λ e. Good e.jobs) old.now × (m < 131072) }
    ensures { (result ≡ old_sum old.now m) × (result ≤ 1030792151040) }
{
    let mut sum = 0;
    for e in old {
        sum += e.before(m);
    }
    sum
}

// Beside old_sum: one function for both would need clauses on a closure, longer than the two bodies.
#[tactic(auto, using(base::proofs::Sums::list_more), unfolding(base::specs::Sums::sum_of))]
fn new_sum(new: &[New], u: u64) -> u64
    requires { (length new.now ≤ 30) × All (λ e. Good e.jobs) new.now × (u < 131072) }
    ensures { (result ≡ new_sum new.now u) × (result ≤ 1030792151040) }
{
    let mut sum = 0;
    for e in new {
        sum += e.after(u);
    }
    sum
}

impl<'a> Demand<'a> {
    // The demand at t, the request coming at x.
    #[tactic(auto, unfolding(crate::specs::Terms::flat_demand))]
    pub fn at(self, x: u64, t: u64) -> u64
        requires { t < 131072 }
        ensures { result ≡ flat_demand self.entry.own self.entry.old.now self.entry.new.now x t }
    {
        self.own + old_sum(self.old, t.min(x)) + new_sum(self.new, t.saturating_sub(x))
    }

    // The next phase after x at which the old tasks grow, or limit + 1.
    pub fn next_phase(self, x: u64, limit: u64) -> u64
        requires { (x ≤ limit) × (limit < 65536) }
        ensures { result ≡ next_phase self.entry.old.now x limit }
    {
        self.old
            .iter()
            .fold(limit + 1, |next, e| next.min(e.next_of(x)))
    }

    // The last phase up to m + 1 at which the old tasks grow, or 1.
    #[tactic(auto, using(crate::proofs::Terms::phase_some, crate::proofs::Terms::phase_by, crate::proofs::Terms::prev_more, crate::proofs::Terms::prev_none))]
    pub fn prev_phase(self, m: u64) -> u64
        requires { m < 65536 }
        ensures { result ≡ prev_phase self.entry.old.now m }
    {
        let mut prev = 1;
        for e in self.old {
            if m < prev {
                return prev;
            }
            prev = prev.max(e.prev_of(m));
        }
        prev
    }
}
