// The tasks of a table as a row takes them, and the terms of those above a rank. The tasks of a side are rolled out once, each row gathers from the roll.

#![tactic(auto)]

ghost use Rattle.std.specs.Prelude.{◌≡◌, ◌≤◌, ◌<◌, ◌++◌, map, take, drop, length};
ghost use Rattle.base.specs.Numbers.{recip_of};
ghost use Rattle.term.specs.Terms.{Good};
ghost use Rattle.window.specs.Order.{rank};
ghost use Rattle.window.specs.Demand.{own_time};
ghost use Rattle.above.specs.Roll.{rolled, Periodic, Sound, count_above, terms_above, Gives, gathered, left_of, left_above};

use block::{Kind, Task};
use term::{Jobs, Old};

// A task, rolled out: what it asks for as an old one, how long after the request a new one's first job comes, and who goes first.
#[derive(Clone, Copy)]
pub struct Rolled {
    pub old: Old,
    pub offset: u64,
    pub rank: u64,
}

#[tactic(auto, unfolding(window::specs::Order::rank))]
pub fn rank_of(x: Task) -> u64
    ensures { result ≡ rank x }
{
    let p = u64::from(x.priority);
    match window::kind_of(x) {
        Kind::Completed | Kind::Aborted => 2 * p,
        Kind::New => 2 * p + 1,
    }
}

// What x itself asks for in each of its windows.
pub fn own_time(x: Task) -> u64
    ensures { (result ≡ own_time x) × (result < 65536) }
{
    u64::from(x.execution)
}

// The reciprocal of p, by two divisions that 32 bits are enough for: 2^40 is 512 times 2^31.
#[tactic(auto, using(crate::proofs::Inverse::part, crate::proofs::Inverse::left, crate::proofs::Inverse::split))]
fn recip(p: u32) -> u64
    requires { (1 ≤ p) × (p < 65536) }
    ensures { result ≡ recip_of p }
{
    let q = 2147483648 / p;
    let rest = 2147483648 - q * p;
    let more = (512 * rest + (p - 1)) / p;
    512 * u64::from(q) + u64::from(more)
}

impl Rolled {
    // What an array of rolled tasks holds where none is rolled out.
    pub const NONE: Rolled = Rolled {
        old: Old {
            jobs: Jobs::NONE,
            cut: false,
        },
        offset: 0,
        rank: 0,
    };

    fn of(x: Task) -> Rolled
        requires { 1 ≤ x.period }
        ensures { (result ≡ rolled x) × (x.period < 65536) × (x.execution < 65536) }
    {
        Rolled {
            old: Old {
                jobs: Jobs {
                    recip: recip(u32::from(x.period)),
                    period: u64::from(x.period),
                    execution: u64::from(x.execution),
                },
                cut: matches!(window::kind_of(x), Kind::Aborted),
            },
            offset: u64::from(x.offset),
            rank: rank_of(x),
        }
    }

    // What it leaves at the request to a task of rank p.
    fn left(self, p: u64) -> u64
        requires { Good self.old.jobs }
        ensures { (result ≡ left_of p self) × (result < 65536) }
    {
        if self.rank < p && !self.old.cut {
            return self.old.jobs.execution;
        }
        0
    }
}

// The roll of some tasks, put to the front of the rolls. `Sound` is said of it alone, as in `left`. By places: of what a loop writes through an iterator the check knows lengths alone.
pub fn roll(rolls: &mut [Rolled], tasks: &[Task])
    requires { Periodic tasks.now × (length tasks.now ≤ length rolls.old) }
    ensures { (rolls.new ≡ map rolled tasks.now ++ drop (length tasks.now) rolls.old) × Sound (map rolled tasks.now) }
{
    for (j, x) in tasks.iter().enumerate() {
        rolls[j] = Rolled::of(*x);
    }
}

// The terms of those tasks that are above the rank p, put to the front of the terms, and how many they are: the contract says
// what all of the terms hold then.
pub fn gather<T: Copy, F: Fn(Rolled) -> T>(
    terms: &mut [T],
    rolls: &[Rolled],
    p: u64,
    term: F,
) -> usize
    requires room { length rolls.now ≤ length terms.old }
    requires callable { F.IsAlwaysCallable term }
    ensures count { (result ≡ count_above p rolls.now) × (result ≤ length rolls.now) }
    ensures terms { (t : Rolled → T) → Gives (F.post term) t rolls.now → (terms.new ≡ gathered t p rolls.now terms.old) × (take result terms.new ≡ terms_above t p rolls.now) }
{
    let mut count = 0;
    // each is written, and the next one over it where it is not above: quicker than a branch
    for r in rolls {
        terms[count] = term(*r);
        count += usize::from(r.rank < p);
    }
    count
}

// What all of them leave at the request to a task of rank p. They come alone, where `judge` has both rolls in one struct.
pub fn left(rolls: &[Rolled], p: u64) -> u64
    requires { Sound rolls.now }
    ensures { (result ≡ left_above p rolls.now) × (result ≤ 1966050) }
{
    rolls.iter().map(|r| r.left(p)).sum()
}
