// The checks of a list that is to be written: codes 1, 11, 4 and 5. The definitions that the contracts cite stand in the specs of block.

#![tactic(auto)]

ghost use Rattle.std.specs.Prelude.{◌≡◌, ◌≤◌, ◌/◌, length};
ghost use Rattle.block.specs.Format.{most_tasks, list_size};
ghost use Rattle.block.specs.Answers.{first_of};
ghost use Rattle.block.specs.Checks.{number_checks};
ghost use Rattle.block.specs.Block.{each_entry, list_head};

use block::{BLOCK_SIZE, Code, LIST_SIZE, MOST_TASKS, NO_SIDE, Verdict};

#[tactic(auto, unfolding(block::specs::Answers::first_of))]
fn check_entry(numbers: &[u32; LIST_SIZE], side: u32, k: u32) -> Verdict
    ensures { result ≡ first_of (number_checks side k numbers.now) }
{
    rules::refuse(!numbers::are_fit(numbers), Code::Rule, side, k)?;
    rules::check_task(side, k, numbers::task_from(numbers))
}

// The first of a list's entries that breaks a rule.
pub fn check_entries(list: &[u32], side: u32) -> Verdict
    requires { length list.now / list_size ≤ most_tasks }
    ensures { result ≡ first_of (each_entry side list.now (length list.now / list_size)) }
{
    let entries = list.as_chunks().0;
    rules::first_refusal(entries.len(), |k| check_entry(&entries[k], side, k as u32))
}

// Codes 1, 11 and 4.
#[tactic(auto, unfolding(block::specs::Answers::first_of, block::specs::Block::list_head))]
pub fn check_list(side: u32, size: usize, room: usize) -> Verdict
    ensures { result ≡ first_of (list_head side size room) }
{
    rules::refuse(room != BLOCK_SIZE, Code::BlockLength, side, 0)?;
    rules::refuse(size % LIST_SIZE != 0, Code::ListLength, NO_SIDE, 0)?;
    rules::refuse(
        1 < side || MOST_TASKS < size / LIST_SIZE,
        Code::Head,
        side,
        0,
    )
}
