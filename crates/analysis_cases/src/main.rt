// Runs `analyse` through real blocks: cases a to j, the order of refusals, and the edges of the report. The tries stand in stdin, and its first
// lines say how they are written. A line is printed as it stands; after a try come the four numbers of the answer, whether the lent report was kept
// or changed, and, once done, the whole report.

#![tactic(auto)]

use block::{BLOCK_SIZE, LIST_SIZE};
use rows::{REPORT_ROOM, ROW_SIZE};
use std::io::Write;
use std::{array, io};
use tries::{MOST_NUMBERS, NO_BYTE, number};

// The largest report lent: a number more than any pair's rows need.
const MOST_ROOM: usize = REPORT_ROOM + 1;

// What stands in a report before it is lent.
fn untouched() -> [u32; MOST_ROOM] {
    array::from_fn(|i| 1000 + i as u32)
}

// ---- the lists

// Puts a number for the field that a letter names of the task that starts at a place of a list.
fn put_field(list: &mut [u32], task: usize, name: u8, x: u32) {
    if let Some(field) = tries::field(name) {
        let at = task.saturating_add(field);
        if at < list.len() {
            list[at] = x;
        }
    }
}

// By places, since a name and the next word go together: the fields that a line names from word 4 on, each with its number; `and` goes on to the next task. A line has no more words than bytes.
fn put_words(list: &mut [u32], line: &[u8]) {
    let mut task: usize = 0;
    for k in 4..line.len() {
        match tries::letter(line, k) {
            Some(b'a') => task = task.saturating_add(LIST_SIZE),
            Some(name) => put_field(list, task, name, number(line, k + 1)),
            None => {}
        }
    }
}

// The block of the list that a line says.
fn block_of(line: &[u8], side: u32, mode: u16) -> [u8; BLOCK_SIZE] {
    let mut list = [0; MOST_NUMBERS];
    let mut block = [NO_BYTE; BLOCK_SIZE];
    let size = tries::room(line, 1, LIST_SIZE, MOST_NUMBERS);
    put_words(&mut list, line);
    writer::write(side, mode, &list[..size], &mut block);
    block
}

// ---- the tries

// A block as a try has it: damaged, where the line names its side.
fn tried(line: &[u8], side: u32, block: &[u8; BLOCK_SIZE]) -> [u8; BLOCK_SIZE] {
    let mut bytes = *block;
    if number(line, 9) == side {
        tries::damage(&mut bytes, line);
    }
    bytes
}

// The lent report and what it held come apart, as in all of these programs: a struct for one call would be no plainer.
fn tell<W: Write>(
    to: &mut W,
    old: &[u8],
    new: &[u8],
    report: &mut [u32],
    before: &[u32],
) -> io::Result<()> {
    let a = pair::analyse(old, new, report);
    says::say_outcome(to, a, tries::same_from(report, before, 0))?;
    // The answer as C gets it: a code of 0 is done.
    if a.code == 0 {
        says::say_numbers(to, b"", report)?;
    }
    Ok(())
}

fn try_pair<W: Write>(to: &mut W, line: &[u8], old: &[u8], new: &[u8]) -> io::Result<()> {
    let before = untouched();
    let mut report = before;
    let room = tries::room(line, 2, ROW_SIZE, MOST_ROOM);
    tell(to, old, new, &mut report[..room], &before)
}

fn try_blocks<W: Write>(
    to: &mut W,
    line: &[u8],
    old: &[u8; BLOCK_SIZE],
    new: &[u8; BLOCK_SIZE],
) -> io::Result<()> {
    let a = tried(line, 0, old);
    let b = tried(line, 1, new);
    let n = tries::length_of(line, 5, BLOCK_SIZE);
    let k = tries::length_of(line, 7, BLOCK_SIZE);
    try_pair(to, line, &a[..n], &b[..k])
}

// ---- the lines

// A list's line leaves its block for the tries behind it. A line that starts with none of the three letters is only printed.
fn main(rt: HostRuntime) -> io::Result<()> {
    // in fixed memory of each program
    let mut text = [0; 65536];
    let n = streams::read_full(&mut rt.stdin(), &mut text)?;
    let mut old = [NO_BYTE; BLOCK_SIZE];
    let mut new = old;
    says::say_lines(&mut rt.stdout(), &text[..n], |to, line| {
        match line {
            [b'o', ..] => old = block_of(line, 0, 1),
            [b'n', ..] => new = block_of(line, 1, 2),
            [b't', ..] => try_blocks(to, line, &old, &new)?,
            _ => {}
        }
        Ok(())
    })
}
