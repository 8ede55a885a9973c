// Halves, words and zero bytes of a block, and its check. The definitions that the contracts cite stand in the specs of block.

#![tactic(auto)]

ghost use Rattle.std.specs.Prelude.{◌≡◌, ◌+◌, ◌<◌, length};
ghost use Rattle.block.specs.Format.{block_size};
ghost use Rattle.block.specs.Record.{half_at, word_at, all_zero};
ghost use Rattle.block.specs.Block.{check_of};

use block::CHECK_WORDS;

pub fn half_at(b: &[u8], a: usize) -> u16
    requires { a + 1 < length b.now }
    ensures { result ≡ half_at b.now a }
{
    u16::from_le_bytes([b[a], b[a + 1]])
}

// Beside half_at, since std has no trait over from_le_bytes. In 64 bits, since the sums of the check are so.
pub fn word_at(b: &[u8], a: usize) -> u64
    requires { a + 3 < length b.now }
    ensures { (result ≡ word_at b.now a) × (result < 4294967296) }
{
    u64::from(u32::from_le_bytes([b[a], b[a + 1], b[a + 2], b[a + 3]]))
}

// The check of a block: the words before it, added modulo 2^32; by their places, as the definition has them.
pub fn check_of(b: &[u8]) -> u64
    requires { length b.now ≡ block_size }
    ensures { result ≡ check_of b.now }
{
    let mut sum: u64 = 0;
    for k in 0..CHECK_WORDS {
        sum = (sum + word_at(b, 4 * k)) % 4294967296;
    }
    sum
}

// Whether the largest byte is zero: the machine takes many at once for that, where `any` would stop at each.
#[tactic(auto, using(crate::proofs::Zeros::zeros_more), unfolding(base::specs::Lists::every))]
pub fn all_zero(bytes: &[u8]) -> bool
    ensures { result ≡ all_zero bytes.now }
{
    let mut most: u8 = 0;
    for b in bytes {
        most = most.max(*b);
    }
    most == 0
}
