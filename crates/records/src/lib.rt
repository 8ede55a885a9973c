// A task as sixteen bytes of a block: the task that they say, the rules of a record, what two records share. The definitions that the contracts cite stand in the specs of block.

#![tactic(auto)]

ghost use Rattle.std.specs.Prelude.{◌≡◌, ◌<◌, ◌≤◌, length};
ghost use Rattle.block.specs.Format.{block_size, most_tasks};
ghost use Rattle.block.specs.Block.{record_part};
ghost use Rattle.block.specs.Record.{task_of};
ghost use Rattle.block.specs.Answers.{first_of};
ghost use Rattle.block.specs.Checks.{record_checks, alike};

use block::{Code, HEAD_SIZE, RECORD_SIZE, Task, Verdict, ZERO_PLACE};

// The first `count` records of a block. The block and a count, since the room behind them is checked too.
#[derive(Clone, Copy)]
pub struct Records<'a> {
    pub block: &'a [u8],
    pub count: usize,
    pub ghost whole: { length block.now ≡ block_size },
    pub ghost few: { count ≤ most_tasks },
}

impl<'a> Records<'a> {
    // The sixteen bytes of record k, a place, for which a type of its own would be no plainer.
    pub fn part(self, k: usize) -> &'a [u8; RECORD_SIZE]
        requires { k < most_tasks }
        ensures { result.now ≡ record_part self.entry.block.now k }
    {
        let at = HEAD_SIZE + RECORD_SIZE * k;
        self.block[at..at + RECORD_SIZE].first_chunk().unwrap()
    }

    // The task of record k, a place, as above.
    pub fn task(self, k: usize) -> Task
        requires { k < most_tasks }
        ensures { result ≡ task_of (record_part self.entry.block.now k) }
    {
        record_at(self.part(k))
    }
}

// The task of a record's sixteen bytes. No `From`: neither the array nor `Task` is of this crate.
#[tactic(auto, unfolding(block::specs::Record::task_of))]
pub fn record_at(rec: &[u8; RECORD_SIZE]) -> Task
    ensures { result ≡ task_of rec.now }
{
    Task {
        kind: rec[0],
        priority: rec[1],
        number: words::half_at(rec, 2),
        period: words::half_at(rec, 4),
        deadline: words::half_at(rec, 6),
        execution: words::half_at(rec, 8),
        offset: words::half_at(rec, 10),
    }
}

#[tactic(auto, using(block::proofs::Verdicts::first_stop, block::proofs::Verdicts::first_last))]
pub fn check_record(rec: &[u8; RECORD_SIZE], side: u32, k: u32) -> Verdict
    ensures { result ≡ first_of (record_checks side k rec.now) }
{
    rules::check_task(side, k, record_at(rec))?;
    rules::refuse(!words::all_zero(&rec[ZERO_PLACE..]), Code::Rule, side, k)
}

#[tactic(auto, unfolding(block::specs::Checks::alike, block::specs::Record::task_of))]
pub fn are_alike(first: &[u8; RECORD_SIZE], second: &[u8; RECORD_SIZE]) -> bool
    ensures { result ≡ alike (task_of first.now) (task_of second.now) }
{
    words::half_at(first, 2) == words::half_at(second, 2) || first[1] == second[1]
}
