// The writer's edge cases, run. The tries stand in stdin, one to a line, and its first lines say how they are written.
// A line is printed as it stands; after a try come the four numbers of the answer, what became of the lent block, and what an accepted one holds.
// The lines to be printed stand in stdout, worked out from the paper.

#![tactic(auto)]

ghost use Rattle.std.specs.Prelude.{◌<◌};

use block::LIST_SIZE;
use std::io;
use std::io::Write;
use tries::{MODE, MOST_BYTES, MOST_NUMBERS, NO_BYTE, NO_NUMBER, number};

// The place in a list that word k of a line names by a field and its word k + 2 by a task; k is a small place, as in `tries::room`.
fn place(line: &[u8], k: usize) -> Option<usize>
    requires { k < 100 }
{
    let field = tries::field(tries::letter(line, k)?)?;
    Some(LIST_SIZE * number(line, k + 2) as usize + field)
}

// Puts what word k + 4 of a line says where its word k names a field and its word k + 2 a task.
fn put_number(list: &mut [u32], line: &[u8], k: usize)
    requires { k < 100 }
{
    if let Some(at) = place(line, k)
        && at < list.len()
    {
        list[at] = number(line, k + 4);
    }
}

// The list that a line's writing is of.
fn list_of(line: &[u8]) -> [u32; MOST_NUMBERS] {
    let mut list = tries::good_list(number(line, 3));
    put_number(&mut list, line, 8);
    put_number(&mut list, line, 13);
    list
}

// Whether a block reads as the list that it was written from.
fn reads_back(side: u32, bytes: &[u8], list: &[u32]) -> bool {
    let mut again = [NO_NUMBER; MOST_NUMBERS];
    reader::read(bytes, side, &mut again);
    tries::same_from(&again, list, 0)
}

// The lent block and what it held come apart, as in all of these programs: a struct for one call would be no plainer.
fn tell_write<W: Write>(
    to: &mut W,
    side: u32,
    list: &[u32],
    bytes: &mut [u8],
    before: &[u8],
) -> io::Result<()> {
    let a = writer::write(side, MODE, list, bytes);
    says::say_outcome(to, a, &*bytes == before)?;
    // The answer as C gets it: a code of 0 is done.
    if a.code == 0 {
        let same = reads_back(side, bytes, list);
        says::say_check(to, bytes)?;
        says::say_back(to, same)?;
    }
    Ok(())
}

fn write<W: Write>(to: &mut W, line: &[u8]) -> io::Result<()> {
    let side = number(line, 5);
    let list = list_of(line);
    let mut bytes = [NO_BYTE; MOST_BYTES];
    let before = bytes;
    let size = tries::room(line, 0, LIST_SIZE, MOST_NUMBERS);
    let room = tries::length_of(line, 7, MOST_BYTES);
    tell_write(to, side, &list[..size], &mut bytes[..room], &before[..room])
}

// A line that does not start as a writing is only printed.
fn main(rt: HostRuntime) -> io::Result<()> {
    // in fixed memory of each program
    let mut text = [0; 65536];
    let n = streams::read_full(&mut rt.stdin(), &mut text)?;
    says::say_lines(&mut rt.stdout(), &text[..n], |to, line| match line {
        [b'w' | b's' | b'e', ..] => write(to, line),
        _ => Ok(()),
    })
}
