// The analysis of two blocks.

#![tactic(auto)]

ghost use Rattle.std.specs.Prelude.{◌≡◌};
ghost use Rattle.block.specs.Block.{listed};
ghost use Rattle.block.specs.Legal.{Tabled};
ghost use Rattle.pair.specs.Analysis.{pair_of, analyse_of};
ghost use Rattle.pair.specs.Verdict.{verdict_of};

use block::{Answer, DONE, SHORT, Table, Verdict};
use rows::ROW_SIZE;

// Codes 8 to 10, and the rows once nothing is refused. Two tables, each with its clause: document 01 has them apart (decision B10).
#[tactic(auto, using(crate::proofs::Exits::settled))]
pub fn settle(old: Table, new: Table, report: &mut [u32]) -> Verdict
    requires { Tabled 0 old × Tabled 1 new }
    ensures { (result ≡ verdict_of (pair_of (listed old) (listed new) report.old).reply) × (report.new ≡ (pair_of (listed old) (listed new) report.old).report) }
{
    if report.len() < ROW_SIZE * (old.count + new.count) {
        return Err(SHORT);
    }
    rows::rows_of(old, new, report)
}

// Codes 1 to 7 on the old block, then on the new one; then the pair of their tables.
// Not by load, out of whose answer each table would be copied.
#[tactic(auto, using(crate::proofs::Exits::table_keeps))]
pub fn judged(old: &[u8], new: &[u8], report: &mut [u32]) -> Verdict
    ensures { (result ≡ verdict_of (analyse_of old.now new.now report.old).reply) × (report.new ≡ (analyse_of old.now new.now report.old).report) }
{
    let before = checks::records_of(old, 0)?;
    let after = checks::records_of(new, 1)?;
    settle(tasks::table_of(before), tasks::table_of(after), report)
}

// What `judged` says, as an answer, in a line, as in `writer::write`.
pub fn analyse(old: &[u8], new: &[u8], report: &mut [u32]) -> Answer
    ensures { (result ≡ (analyse_of old.now new.now report.old).reply) × (report.new ≡ (analyse_of old.now new.now report.old).report) }
{
    match judged(old, new, report) {
        Ok(()) => DONE,
        Err(refusal) => refusal,
    }
}
