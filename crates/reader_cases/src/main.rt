// The reader's and the loader's edge cases, run. The tries stand in stdin, one to a line, and its first lines say how they are written.
// A line is printed as it stands; after a try come the four numbers of the answer, what became of the lent list, and what an accepted one holds.
// The lines to be printed stand in stdout, worked out from the paper.

#![tactic(auto)]

use block::{Answer, BLOCK_SIZE, LIST_SIZE};
use std::io;
use std::io::Write;
use tries::{MODE, MOST_BYTES, MOST_NUMBERS, NO_BYTE, NO_NUMBER, number};

// ---- the reader

// The block of the good list that a line names, and past it one byte more.
fn good_bytes(line: &[u8]) -> [u8; MOST_BYTES] {
    let side = number(line, 3);
    let list = tries::good_list(side);
    let size = tries::room(line, 0, LIST_SIZE, MOST_NUMBERS);
    let mut bytes = [NO_BYTE; MOST_BYTES];
    writer::write(side, MODE, &list[..size], &mut bytes[..BLOCK_SIZE]);
    bytes
}

// The bytes that a line's reading or loading is of.
fn bytes_of(line: &[u8]) -> [u8; MOST_BYTES] {
    let mut bytes = good_bytes(line);
    tries::damage(&mut bytes, line);
    bytes
}

// Whether the tasks of an accepted block write as the block that they were read from.
fn writes_back(a: Answer, list: &[u32], end: usize, bytes: &[u8]) -> bool {
    let n = end.min(list.len());
    let mut again = [NO_BYTE; BLOCK_SIZE];
    writer::write(a.side, (a.detail % 65536) as u16, &list[..n], &mut again);
    again.as_slice() == bytes
}

// The first task, and the last where it is another.
fn tell_accepted<W: Write>(
    to: &mut W,
    a: Answer,
    list: &[u32],
    before: &[u32],
    bytes: &[u8],
) -> io::Result<()> {
    let count = a.record as usize;
    let end = LIST_SIZE * count;
    let kept = tries::same_from(list, before, end);
    let same = writes_back(a, list, end, bytes);
    to.write_all(b", rest")?;
    says::say_kept(to, kept)?;
    says::say_back(to, same)?;
    if 0 < count {
        says::say_entry(to, list, 0)?;
    }
    if 1 < count {
        says::say_entry(to, list, count - 1)?;
    }
    Ok(())
}

// The lent list and what it held come apart, as in all of these programs: a struct for one call would be no plainer.
fn tell_read<W: Write>(
    to: &mut W,
    bytes: &[u8],
    wanted: u32,
    list: &mut [u32],
    before: &[u32],
) -> io::Result<()> {
    let a = reader::read(bytes, wanted, list);
    says::say_outcome(to, a, tries::same_from(list, before, 0))?;
    // The answer as C gets it: a code of 0 is done.
    if a.code == 0 {
        tell_accepted(to, a, list, before, bytes)?;
    }
    Ok(())
}

fn read<W: Write>(to: &mut W, line: &[u8]) -> io::Result<()> {
    let bytes = bytes_of(line);
    let wanted = number(line, 5);
    let mut list = [NO_NUMBER; MOST_NUMBERS];
    let before = list;
    let long = tries::length_of(line, 7, MOST_BYTES);
    let room = tries::room(line, 8, LIST_SIZE, MOST_NUMBERS);
    tell_read(to, &bytes[..long], wanted, &mut list[..room], &before)
}

// ---- the loader

fn load<W: Write>(to: &mut W, line: &[u8]) -> io::Result<()> {
    let bytes = bytes_of(line);
    let long = tries::length_of(line, 7, MOST_BYTES);
    says::say_loaded(to, reader::load(&bytes[..long], number(line, 5)))
}

// ---- the lines

// A line that starts with neither letter is only printed.
fn main(rt: HostRuntime) -> io::Result<()> {
    // in fixed memory of each program
    let mut text = [0; 65536];
    let n = streams::read_full(&mut rt.stdin(), &mut text)?;
    says::say_lines(&mut rt.stdout(), &text[..n], |to, line| match line {
        [b'r', ..] => read(to, line),
        [b'l', ..] => load(to, line),
        _ => Ok(()),
    })
}
