// What the programs that run edge cases share: what a line of their tries says, good lists, damage to a block, lent memory.

#![tactic(auto)]

ghost use Rattle.std.specs.Prelude.{◌≡◌, ◌<◌, ◌≤◌, min, length, drop, IfSome};
ghost use Rattle.std.specs.Option.{option_copied};
ghost use Rattle.block.specs.Format.{block_size, list_size};
ghost use Rattle.tries.specs.Tries.{word_of, decimal_of, number_of, letter_of, shifted, room_of, field_of, good_tasks, good_task, good_list, put_byte, mended, damaged, agree};

use block::{BLOCK_SIZE, CHECK_PLACE, LIST_SIZE, Task};

// The largest memory lent: 32 tasks, and a byte more than a block.
pub const MOST_NUMBERS: usize = LIST_SIZE * GOOD_TASKS as usize;

pub const MOST_BYTES: usize = BLOCK_SIZE + 1;

// What stands in lent memory before: in each number of a list, in each byte of a block.
pub const NO_NUMBER: u32 = 3000000000;

pub const NO_BYTE: u8 = 195;

// The mode number that is written.
pub const MODE: u16 = 513;

const GOOD_TASKS: u8 = 32;

// The first letters of the fields' names: kind, priority, number, T, D, C, Y.
const FIELDS: [u8; LIST_SIZE] = *b"kpnTDCY";

// ---- what a line says

// Word k of a line, counted from 0. Words have one space between them.
fn word(line: &[u8], k: usize) -> Option<&[u8]>
    ensures { option_copied result ≡ word_of k line.now }
{
    line.split(|b| *b == b' ').nth(k)
}

// The digits of a word, and what comes of words off the form, which the programs print: so no `parse`.
fn decimal(word: &[u8]) -> u32
    ensures { result ≡ decimal_of word.now }
{
    word.iter().fold(0, |x: u32, b| {
        x.wrapping_mul(10).wrapping_add(u32::from(*b % 16))
    })
}

// What word k of a line says in decimal. Where the line has no such word, that is more than any place and any length.
pub fn number(line: &[u8], k: usize) -> u32
    ensures { result ≡ number_of k line.now }
{
    // No `Option`: where a line is off the form, the programs go on with this.
    word(line, k).map_or(u32::MAX, decimal)
}

// The same as a length of at most so much.
pub fn length_of(line: &[u8], k: usize, most: usize) -> usize
    ensures { result ≡ min (number_of k line.now) most }
{
    (number(line, k) as usize).min(most)
}

// The first letter of word k of a line, where it has one.
pub fn letter(line: &[u8], k: usize) -> Option<u8>
    ensures { result ≡ letter_of k line.now }
{
    word(line, k)?.first().copied()
}

// A number less where a word starts with s (short-), a number more where it starts with e (extra-).
fn shift(letter: Option<u8>, n: usize) -> usize
    requires { n < 1099511627776 }
    ensures { result ≡ shifted letter n }
{
    match letter {
        Some(b's') => n.saturating_sub(1),
        Some(b'e') => n + 1,
        _ => n,
    }
}

// Room for as many tasks as word k + 1 says, at so many numbers each, shifted as word k says. At most so much. k is a small place, from
// which others are counted; a type of its own would be unwrapped at each.
pub fn room(line: &[u8], k: usize, size: usize, most: usize) -> usize
    requires { (k < 100) × (size < 256) }
    ensures { result ≡ min (room_of size k line.now) most }
{
    let whole = size * number(line, k + 1) as usize;
    shift(letter(line, k), whole).min(most)
}

// The place among a task's numbers of the field whose name starts with a letter.
pub fn field(letter: u8) -> Option<usize>
    ensures place { result ≡ field_of letter }
    ensures within { IfSome result (λ at. at < list_size) }
{
    FIELDS.iter().position(|b| *b == letter)
}

// ---- good lists

fn good_task(side: u32, k: u8) -> Task
    requires { k < good_tasks }
    ensures { result ≡ good_task side k }
{
    let old = side == 0;
    Task {
        kind: if old { k % 2 } else { 2 },
        priority: 10 + k,
        number: 300 + u16::from(k),
        period: 1000,
        deadline: 900,
        execution: 7,
        offset: if old { 0 } else { 600 + u16::from(k) },
    }
}

// Tasks that break no rule, whose numbers need both their bytes where there are two. By places: of what a loop writes through an iterator
// the check knows lengths alone.
pub fn good_list(side: u32) -> [u32; MOST_NUMBERS]
    ensures { result ≡ good_list side }
{
    let mut list = [0; MOST_NUMBERS];
    for k in 0..GOOD_TASKS {
        let at = LIST_SIZE * usize::from(k);
        numbers::put_numbers(&mut list[at..at + LIST_SIZE], good_task(side, k));
    }
    list
}

// ---- damage to a block

// Puts what word k + 2 of a line says at the place that its word k says; k is a small place, as in `room`.
fn put_byte(bytes: &mut [u8], line: &[u8], k: usize)
    requires { k < 100 }
    ensures { bytes.new ≡ put_byte k line.now bytes.old }
{
    let at = number(line, k) as usize;
    if at < bytes.len() {
        bytes[at] = (number(line, k + 2) % 256) as u8;
    }
}

// Gives a block the check that its other bytes ask for.
fn mend(bytes: &mut [u8])
    requires { block_size ≤ length bytes.old }
    ensures { bytes.new ≡ mended bytes.old }
{
    let sum = words::check_of(&bytes[..BLOCK_SIZE]);
    puts::put_check(&mut bytes[CHECK_PLACE..BLOCK_SIZE], sum);
}

// The damage that the words of a line from word 10 on say: mend M byte PLACE put BYTE byte PLACE put BYTE.
pub fn damage(bytes: &mut [u8], line: &[u8])
    requires { block_size ≤ length bytes.old }
    ensures { bytes.new ≡ damaged line.now bytes.old }
{
    put_byte(bytes, line, 13);
    put_byte(bytes, line, 17);
    if number(line, 11) == 1 {
        mend(bytes);
    }
}

// ---- lent memory

// Whether two lists are the same from a place on, as far as both go: so no `==`.
pub fn same_from(a: &[u32], b: &[u32], from: usize) -> bool
    ensures { result ≡ agree (drop from a.now) (drop from b.now) }
{
    let rest = b.iter().skip(from);
    a.iter().skip(from).zip(rest).all(|(x, y)| x == y)
}
