// A task as an entry of a list: whether its numbers fit, the task that it says, the entry of a task. The definitions that the contracts cite stand in the specs of block.

#![tactic(auto)]

ghost use Rattle.std.specs.Prelude.{◌≡◌, true, length};
ghost use Rattle.block.specs.Format.{list_size};
ghost use Rattle.block.specs.Record.{numbers_of, all_below, task_from, fits};

use block::{LIST_SIZE, Task};

fn all_below(numbers: &[u32], bound: u32) -> bool
    ensures { result ≡ all_below bound numbers.now }
{
    numbers.iter().all(|n| *n < bound)
}

pub fn are_fit(numbers: &[u32; LIST_SIZE]) -> bool
    ensures { result ≡ fits numbers.now }
{
    all_below(&numbers[..2], 256) && all_below(&numbers[2..], 65536)
}

// The task of an entry that fits. No number is cut, so `as`, and no `try_from`, whose error could not come; no `From`, since neither type is of this crate.
#[tactic(auto, using(layout::proofs::Entries::entry_small), unfolding(block::specs::Record::task_from))]
pub fn task_from(numbers: &[u32; LIST_SIZE]) -> Task
    requires { fits numbers.now ≡ true }
    ensures { result ≡ task_from numbers.now }
{
    let [kind, priority, number, period, deadline, execution, offset] = *numbers;
    Task {
        kind: kind as u8,
        priority: priority as u8,
        number: number as u16,
        period: period as u16,
        deadline: deadline as u16,
        execution: execution as u16,
        offset: offset as u16,
    }
}

// A task's entry, put into its part of a list, which is lent as a slice: a reference to an array is longer to lend.
#[tactic(auto, unfolding(block::specs::Record::numbers_of))]
pub fn put_numbers(numbers: &mut [u32], x: Task)
    requires { length numbers.old ≡ list_size }
    ensures { numbers.new ≡ numbers_of x }
{
    // not by copy_from_slice, which takes half as long again
    *numbers.first_chunk_mut().unwrap() = [
        u32::from(x.kind),
        u32::from(x.priority),
        u32::from(x.number),
        u32::from(x.period),
        u32::from(x.deadline),
        u32::from(x.execution),
        u32::from(x.offset),
    ];
}
