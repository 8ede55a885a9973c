// The block of a list that passes. The definitions that the contracts cite stand in the specs of block.

#![tactic(auto)]

ghost use Rattle.std.specs.Prelude.{◌≡◌, ◌≤◌, ◌/◌, length};
ghost use Rattle.block.specs.Format.{most_tasks, list_size};
ghost use Rattle.block.specs.Answers.{first_of};
ghost use Rattle.block.specs.Block.{each_entry, tasks_of, block_of};

use block::{BLOCK_SIZE, CHECK_PLACE, HEAD_SIZE, RECORD_SIZE};

// The block of the tasks that a list says, whose entries all pass.
pub fn block_of(side: u8, mode: u16, list: &[u32]) -> [u8; BLOCK_SIZE]
    requires { (length list.now / list_size ≤ most_tasks) × (first_of (each_entry side list.now (length list.now / list_size)) ≡ Ok tt) }
    ensures { result ≡ block_of side mode (tasks_of list.now) }
{
    let entries = list.as_chunks().0;
    let mut block = puts::empty_block(side, mode, entries.len() as u8);
    // by places, as document 01 has them
    for (k, entry) in entries.iter().enumerate() {
        let at = HEAD_SIZE + RECORD_SIZE * k;
        puts::put_record(&mut block[at..at + RECORD_SIZE], numbers::task_from(entry));
    }
    let sum = words::check_of(&block);
    puts::put_check(&mut block[CHECK_PLACE..], sum);
    block
}
