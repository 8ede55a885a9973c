// The tasks of the records of a block, as a table and as a list of numbers. The definitions that the contracts cite stand in the specs of block.

#![tactic(auto)]

ghost use Rattle.std.specs.Prelude.{◌≡◌, [], ◌++◌, ◌≤◌, ◌*◌, length, drop};
ghost use Rattle.block.specs.Format.{list_size};
ghost use Rattle.block.specs.Block.{tasks_in, list_of, table_of};

use block::{LIST_SIZE, MOST_TASKS, Table, Task};
use records::Records;

// The table without tasks. Memory is fixed, so each of its places is filled.
pub fn no_tasks() -> Table
    ensures { result ≡ table_of [] }
{
    let none = Task {
        kind: 0,
        priority: 0,
        number: 0,
        period: 0,
        deadline: 0,
        execution: 0,
        offset: 0,
    };
    Table {
        tasks: [none; MOST_TASKS],
        count: 0,
    }
}

// The table of a block's records. By places: of what a loop writes through an iterator the check knows lengths alone.
#[tactic(auto, unfolding(base::specs::Lists::up_to))]
pub fn table_of(records: Records) -> Table
    ensures { result ≡ table_of (tasks_in records.entry.block.now records.entry.count) }
{
    let mut table = no_tasks();
    table.count = records.count;
    for k in 0..records.count {
        table.tasks[k] = records.task(k);
    }
    table
}

// The tasks of a block's records, put to the front of a list, by places, as above.
pub fn put_tasks(records: Records, list: &mut [u32])
    requires { list_size * records.count ≤ length list.old }
    ensures { list.new ≡ list_of (tasks_in records.entry.block.now records.entry.count) ++ drop (list_size * records.entry.count) list.old }
{
    for k in 0..records.count {
        let at = LIST_SIZE * k;
        numbers::put_numbers(&mut list[at..at + LIST_SIZE], records.task(k));
    }
}
