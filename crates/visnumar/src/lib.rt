// The functions for C and Rust, each by delegation with the contract of what it calls. include/visnumar.h declares them.

#![tactic(auto)]

ghost use Rattle.std.specs.Prelude.{◌≡◌, length};
ghost use Rattle.block.specs.Block.{read_of, write_of, reply_of, left_of};
ghost use Rattle.pair.specs.Analysis.{analyse_of};

use block::Answer;

#[unsafe(no_mangle)]
pub extern "C" fn visnumar_read(block: &[u8], side: u32, list: &mut [u32]) -> Answer
    ensures { (result ≡ (read_of side block.now list.old).reply) × (list.new ≡ (read_of side block.now list.old).list) }
{
    reader::read(block, side, list)
}

#[unsafe(no_mangle)]
pub extern "C" fn visnumar_write(side: u32, mode: u16, list: &[u32], block: &mut [u8]) -> Answer
    ensures { (result ≡ reply_of (write_of side mode list.now (length block.old))) × (block.new ≡ left_of (write_of side mode list.now (length block.old)) block.old) }
{
    writer::write(side, mode, list, block)
}

#[unsafe(no_mangle)]
pub extern "C" fn visnumar_analyse(old_block: &[u8], new_block: &[u8], report: &mut [u32]) -> Answer
    ensures { (result ≡ (analyse_of old_block.now new_block.now report.old).reply) × (report.new ≡ (analyse_of old_block.now new_block.now report.old).report) }
{
    pair::analyse(old_block, new_block, report)
}
