// The seal of a block, its length and its check, and its head: codes 1 to 4. The definitions that the contracts cite stand in the specs of block.

#![tactic(auto)]

ghost use Rattle.std.specs.Prelude.{◌≡◌, ◌<◌, ◌≤◌, length};
ghost use Rattle.block.specs.Format.{head_size};
ghost use Rattle.block.specs.Answers.{first_of};
ghost use Rattle.block.specs.Block.{marked_by, headed, seal_checks, head_checks};

use block::{
    BLOCK_SIZE, CHECK_PLACE, Code, HEAD_SIZE, MARK_FIRST, MARK_SECOND, MOST_TASKS, Verdict,
};

// Codes 1 and 2, which any block of 512 bytes can earn. A refusal names the side and the place.
#[tactic(auto, unfolding(block::specs::Answers::first_of, block::specs::Block::seal_checks))]
pub fn check_seal(block: &[u8], side: u32, place: u32) -> Verdict
    ensures { result ≡ first_of (seal_checks side place block.now) }
{
    rules::refuse(block.len() != BLOCK_SIZE, Code::BlockLength, side, place)?;
    let sealed = words::word_at(block, CHECK_PLACE) == words::check_of(block);
    rules::refuse(!sealed, Code::Check, side, place)
}

// Whether a block has a mark, whose two bytes come apart, as the definitions have them.
pub fn is_marked(block: &[u8], first: u8, second: u8) -> bool
    requires { 1 < length block.now }
    ensures { result ≡ marked_by first second block.now }
{
    block[0] == first && block[1] == second
}

#[tactic(auto, unfolding(block::specs::Block::headed))]
fn is_headed(block: &[u8], side: u32) -> bool
    requires { head_size ≤ length block.now }
    ensures { result ≡ headed side block.now }
{
    side <= 1
        && u32::from(block[2]) == side
        && usize::from(block[3]) <= MOST_TASKS
        && words::all_zero(&block[6..HEAD_SIZE])
}

// Codes 1 to 4.
#[tactic(auto, using(block::proofs::Heads::seal_length, block::proofs::Verdicts::first_stop, block::proofs::Verdicts::first_on), unfolding(block::specs::Answers::first_of, block::specs::Block::head_checks))]
pub fn check_head(block: &[u8], side: u32) -> Verdict
    ensures { result ≡ first_of (head_checks side block.now) }
{
    check_seal(block, side, 0)?;
    rules::refuse(
        !is_marked(block, MARK_FIRST, MARK_SECOND),
        Code::Mark,
        side,
        0,
    )?;
    rules::refuse(!is_headed(block, side), Code::Head, side, 0)
}
