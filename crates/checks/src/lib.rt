// The records of a block, codes 5 to 7, and every code of a block in order. The definitions that the contracts cite stand in the specs of block.

#![tactic(auto)]

ghost use Rattle.std.specs.Prelude.{◌≡◌, ◌<◌, Ok, Err, MatchResult};
ghost use Rattle.block.specs.Format.{most_tasks};
ghost use Rattle.block.specs.Record.{task_of};
ghost use Rattle.block.specs.Answers.{first_of};
ghost use Rattle.block.specs.Checks.{borne_in};
ghost use Rattle.block.specs.Block.{record_part, tasks_in, count_byte, each_record, each_double, body_checks, block_verdict};

use block::{Answer, CHECK_PLACE, Code, HEAD_SIZE, RECORD_SIZE, Verdict};
use records::Records;

// The first record that breaks a rule.
fn check_records(records: Records, side: u32) -> Verdict
    ensures { result ≡ first_of (each_record side records.entry.block.now records.entry.count) }
{
    rules::first_refusal(
        records.count,
        |k| records::check_record(records.part(k), side, k as u32),
    )
}

// Whether an earlier record bears the number or the priority of record k, a place, as in `Records::part`.
#[tactic(auto, using(crate::proofs::Doubles::borne_more), unfolding(base::specs::Lists::up_to, base::specs::Lists::any))]
fn is_borne(records: Records, k: usize) -> bool
    requires { k < most_tasks }
    ensures { result ≡ borne_in (task_of (record_part records.entry.block.now k)) (tasks_in records.entry.block.now k) }
{
    let own = records.part(k);
    // not by `any` over the range, which takes a tenth longer
    for j in 0..k {
        if records::are_alike(records.part(j), own) {
            return true;
        }
    }
    false
}

// The first record that bears what an earlier one bears. Not in line, where a block takes a third longer.
#[inline(never)]
pub fn check_doubles(records: Records, side: u32) -> Verdict
    ensures { result ≡ first_of (each_double side (tasks_in records.entry.block.now records.entry.count)) }
{
    rules::first_refusal(
        records.count,
        |k| rules::refuse(is_borne(records, k), Code::Double, side, k as u32),
    )
}

// Codes 5 to 7.
#[tactic(auto, using(block::proofs::Verdicts::first_on, block::proofs::Verdicts::first_stop, block::proofs::Verdicts::first_last))]
fn check_body(records: Records, side: u32) -> Verdict
    ensures { result ≡ first_of (body_checks side records.entry.block.now records.entry.count) }
{
    check_records(records, side)?;
    check_doubles(records, side)?;
    let room = &records.block[HEAD_SIZE + RECORD_SIZE * records.count..CHECK_PLACE];
    rules::refuse(!words::all_zero(room), Code::UnusedRoom, side, 0)
}

// The records of a block, once codes 1 to 7 pass in order.
#[tactic(auto, using(block::proofs::Verdicts::first_on, block::proofs::Verdicts::first_stop, block::proofs::Heads::head_length), unfolding(block::specs::Block::block_verdict))]
pub fn records_of(block: &[u8], side: u32) -> Result<Records, Answer>
    ensures { MatchResult result
        (λ r. (block_verdict side block.now ≡ Ok tt) × (r.block.now ≡ block.now) × (r.count ≡ count_byte block.now))
        (λ a. block_verdict side block.now ≡ Err a) }
{
    heads::check_head(block, side)?;
    let records = Records {
        block,
        count: usize::from(block[3]),
    };
    check_body(records, side)?;
    Ok(records)
}
