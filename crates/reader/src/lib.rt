// A block loaded as a table, and read into a list. The definitions that the contracts cite stand in the specs of block.

#![tactic(auto)]

ghost use Rattle.std.specs.Prelude.{◌≡◌, MatchResult};
ghost use Rattle.block.specs.Block.{read_of, loaded_of};

use block::{Answer, Code, LIST_SIZE, Loaded, SHORT};

// The mode number and the table that a block holds, or the refusal.
#[tactic(auto, unfolding(block::specs::Block::loaded_of, block::specs::Block::reading_of))]
pub fn load(block: &[u8], side: u32) -> Result<Loaded, Answer>
    ensures { result ≡ loaded_of side block.now }
{
    let records = checks::records_of(block, side)?;
    let mode = words::half_at(block, 4);
    let table = tasks::table_of(records);
    Ok(Loaded { mode, table })
}

// The answer of a list that was filled, or the refusal.
#[tactic(auto, using(crate::proofs::Outcomes::outcomes))]
fn try_read(block: &[u8], side: u32, list: &mut [u32]) -> Result<Answer, Answer>
    ensures { let o = read_of side block.now list.old in MatchResult result (λ a. a ≡ o.reply) (λ a. a ≡ o.reply) × (list.new ≡ o.list) }
{
    let records = checks::records_of(block, side)?;
    if list.len() < LIST_SIZE * records.count {
        return Err(SHORT);
    }
    tasks::put_tasks(records, list);
    Ok(Answer {
        code: Code::Done as u32,
        side,
        record: records.count as u32,
        detail: u32::from(words::half_at(block, 4)),
    })
}

// A block into the front of a lent list of entries. C reads an answer whether it refuses or not.
pub fn read(block: &[u8], side: u32, list: &mut [u32]) -> Answer
    ensures { (result ≡ (read_of side block.now list.old).reply) × (list.new ≡ (read_of side block.now list.old).list) }
{
    match try_read(block, side, list) {
        Ok(a) | Err(a) => a,
    }
}
