// The parts of a block that is written, each put into its place: the head, a record, the check. The definitions that the contracts cite stand in the specs of block.

#![tactic(auto)]

ghost use Rattle.std.specs.Prelude.{◌≡◌, ◌++◌, ◌-◌, length, replicate};
ghost use Rattle.block.specs.Format.{block_size, record_size, head_size};
ghost use Rattle.block.specs.Record.{word_bytes, record_of};
ghost use Rattle.block.specs.Block.{head_of};

use block::{BLOCK_SIZE, HEAD_SIZE, MARK_FIRST, MARK_SECOND, Task};

// A task's sixteen bytes, put into their part of a block, which is lent as a slice: a reference to an array is longer to lend.
#[tactic(auto, unfolding(block::specs::Record::record_of))]
pub fn put_record(rec: &mut [u8], x: Task)
    requires { length rec.old ≡ record_size }
    ensures { rec.new ≡ record_of x }
{
    let number = x.number.to_le_bytes();
    let period = x.period.to_le_bytes();
    let deadline = x.deadline.to_le_bytes();
    let execution = x.execution.to_le_bytes();
    let offset = x.offset.to_le_bytes();
    // not by copy_from_slice, which takes half as long again
    *rec.first_chunk_mut().unwrap() = [
        x.kind,
        x.priority,
        number[0],
        number[1],
        period[0],
        period[1],
        deadline[0],
        deadline[1],
        execution[0],
        execution[1],
        offset[0],
        offset[1],
        0,
        0,
        0,
        0,
    ];
}

pub fn put_check(check: &mut [u8], sum: u64)
    requires { length check.old ≡ 4 }
    ensures { check.new ≡ word_bytes sum }
{
    check.copy_from_slice(&sum.to_le_bytes()[..4]);
}

// A block of zeros behind a head.
#[tactic(auto, unfolding(block::specs::Block::head_of))]
pub fn empty_block(side: u8, mode: u16, n: u8) -> [u8; BLOCK_SIZE]
    ensures { result ≡ head_of side mode n ++ replicate (block_size - head_size) 0 }
{
    let mode = mode.to_le_bytes();
    let mut block = [0; BLOCK_SIZE];
    block[..HEAD_SIZE].copy_from_slice(&[MARK_FIRST, MARK_SECOND, side, n, mode[0], mode[1], 0, 0]);
    block
}
