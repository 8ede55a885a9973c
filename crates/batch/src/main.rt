// Answers a stream of inputs: each is its length in four bytes, little-endian, and then so many bytes, at most 2,000.
// For each it prints the lines of the printing program and a line with a dot; a longer or a cut-off input ends it.

#![tactic(auto)]

ghost use Rattle.std.specs.Prelude.{◌++◌, OnOk};
ghost use Rattle.std.specs.Io.KnownBytes.{Appends};
ghost use Rattle.render.specs.Printed.{printed};
ghost use Rattle.batch.specs.Dot.{dot_line};

use std::io;
use std::io::{ErrorKind, Read, Write};

// The line that ends an answer.
const DOT: &[u8; 2] = b".\n";

// Fills a buffer, and answers whether the bytes came: an input that ends before is no error.
fn read_part<R: Read>(from: &mut R, part: &mut [u8]) -> io::Result<bool> {
    match from.read_exact(part) {
        Ok(()) => Ok(true),
        Err(e) if e.kind() == ErrorKind::UnexpectedEof => Ok(false),
        Err(e) => Err(e),
    }
}

// Writes the lines of an input and a line with a dot, all at once: whoever reads them gets no answer without its dot.
#[tactic(auto, using(lines::proofs::Put::next_fits))]
fn answer<W: Write>(to: &mut W, input: &[u8]) -> io::Result<()>
    ensures { OnOk result (Appends (W.contents to.old) (W.contents to.new) (printed input.now ++ dot_line)) }
{
    let mut out = [0u8; render::MOST_TEXT + DOT.len()];
    let end = render::render(input, &mut out);
    let all = end + DOT.len();
    out[end..all].copy_from_slice(DOT);
    to.write_all(&out[..all])
}

// Reads and answers one input, and says whether to go on.
fn answer_one<R: Read, W: Write>(from: &mut R, to: &mut W) -> io::Result<bool> {
    let mut head = [0u8; 4];
    let mut input = [0u8; 2000];
    if !read_part(from, &mut head)? {
        return Ok(false);
    }
    let Some(part) = input.get_mut(..u32::from_le_bytes(head) as usize) else {
        return Ok(false);
    };
    if !read_part(from, part)? {
        return Ok(false);
    }
    answer(to, part)?;
    Ok(true)
}

// A proved loop has to end, and nothing says that the input does; so the turns are counted up to more than any run has.
fn answer_all<R: Read, W: Write>(from: &mut R, to: &mut W) -> io::Result<()> {
    for _ in 0..u64::MAX {
        if !answer_one(from, to)? {
            break;
        }
    }
    Ok(())
}

fn main(rt: HostRuntime) -> io::Result<()> {
    answer_all(&mut rt.stdin(), &mut rt.stdout())
}
