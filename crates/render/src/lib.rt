// What the program prints of an input: the lines of a change, or the one line of a refusal.

#![tactic(auto)]

ghost use Rattle.std.specs.Prelude.{◌≡◌, ◌+◌, ◌*◌, ◌≤◌, length, IfOk, IfErr, OnOk};
ghost use Rattle.std.specs.Io.KnownBytes.{Appends};
ghost use Rattle.lines.specs.Put.{put, next, written};
ghost use Rattle.block.specs.Format.{most_tasks};
ghost use Rattle.block.specs.Block.{listed};
ghost use Rattle.block.specs.Legal.{Tabled};
ghost use Rattle.rows.specs.Rows.{row_size, report_room};
ghost use Rattle.render.specs.Printed.{printed, pair_lines, refused_line, done_lines, task_line, task_lines, most_line, most_text};

use block::{Answer, BLOCK_SIZE, Loaded, MOST_TASKS, Table, Task};
use rows::{REPORT_ROOM, ROW_SIZE};
use std::io;
use std::io::Write;

const MOST_LINE: usize = 8 + 11 * ROW_SIZE;

pub const MOST_TEXT: usize = lines::MOST_CHANGE + MOST_LINE * (MOST_TASKS + MOST_TASKS);

// A task's line at a place: its letter, its number, its row. Text and place come apart, as `put_line` has them.
#[tactic(auto, using(lines::proofs::Put::next_fits, lines::proofs::Put::written_fits, crate::proofs::Printed::task_line_lem, crate::proofs::Printed::task_room))]
fn put_task(text: &mut [u8], at: usize, task: &Task, row: &[u32; ROW_SIZE]) -> usize
    requires { at + most_line ≤ length text.old }
    ensures value { (result ≡ at + length (task_line task.now row.now)) × (result ≤ at + most_line) }
    ensures text_after { text.new ≡ put text.old at (task_line task.now row.now) }
{
    let [first, second, third] = *row;
    let numbers = [
        u64::from(task.number),
        u64::from(first),
        u64::from(second),
        u64::from(third),
    ];
    lines::put_line(text, at, &[lines::letter_of(task.kind)], &numbers)
}

// A line for each task of a table; its row is the next of the numbers. Text and place come apart, as above.
fn put_tasks(text: &mut [u8], at: usize, table: &Table, numbers: &[u32]) -> usize
    requires tabled { (length table.now.tasks ≡ most_tasks) × (table.now.count ≤ most_tasks) }
    requires room { (at + most_line * table.now.count ≤ length text.old) × (row_size * table.now.count ≤ length numbers.now) }
    ensures value { (result ≡ at + length (task_lines numbers.now 0 (listed table.now))) × (result ≤ at + most_line * table.now.count) }
    ensures text_after { text.new ≡ put text.old at (task_lines numbers.now 0 (listed table.now)) }
{
    let tasks = &table.tasks[..table.count];
    let (rows, _) = numbers.as_chunks::<ROW_SIZE>();
    let mut end = at;
    for (task, row) in tasks.iter().zip(rows) {
        end = put_task(text, end, task, row);
    }
    end
}

// The tables come apart, as in `pair::settle`. What each of these puts stands in its clauses whole: a word for length and text together would say the same no shorter.
#[tactic(auto, using(lines::proofs::Put::next_fits, lines::proofs::Put::written_fits, lines::proofs::Words::change_room), unfolding(lines::specs::Words::change_line))]
fn put_done(text: &mut [u8; MOST_TEXT], olds: &Loaded, news: &Loaded, report: &[u32]) -> usize
    requires { Tabled 0 olds.now.table × Tabled 1 news.now.table × (length report.now ≡ report_room) }
    ensures value { (result ≡ length (done_lines olds.now.mode news.now.mode (listed olds.now.table) (listed news.now.table) report.now)) × (result ≤ most_text) }
    ensures text_after { text.new ≡ put text.old 0 (done_lines olds.now.mode news.now.mode (listed olds.now.table) (listed news.now.table) report.now) }
{
    let modes = [u64::from(olds.mode), u64::from(news.mode)];
    let first = lines::put_line(text, 0, b"change", &modes);
    let middle = put_tasks(text, first, &olds.table, report);
    put_tasks(
        text,
        middle,
        &news.table,
        &report[ROW_SIZE * olds.table.count..],
    )
}

#[tactic(auto, using(lines::proofs::Put::next_fits, lines::proofs::Put::written_fits, crate::proofs::Printed::refused_room), unfolding(crate::specs::Printed::refused_line))]
fn put_refusal(text: &mut [u8; MOST_TEXT], answer: Answer) -> usize
    ensures value { (result ≡ length (refused_line answer)) × (result ≤ most_text) }
    ensures text_after { text.new ≡ put text.old 0 (refused_line answer) }
{
    let numbers = [
        u64::from(answer.code),
        u64::from(answer.side),
        u64::from(answer.record),
        u64::from(answer.detail),
    ];
    lines::put_line(text, 0, b"refused", &numbers)
}

// The lines of a change that is not refused. Through `judged`, as every pair goes; the loads of two blocks that it passed tell the modes and
// the tasks to print.
#[tactic(auto, using(crate::proofs::Printed::load_tabled))]
fn put_change(text: &mut [u8; MOST_TEXT], old: &[u8], new: &[u8]) -> Result<usize, Answer>
    ensures ok { IfOk result (λ end. (end ≡ length (pair_lines old.now new.now)) × (end ≤ most_text) × (text.new ≡ put text.old 0 (pair_lines old.now new.now))) }
    ensures err { IfErr result (λ answer. (text.new ≡ text.old) × (refused_line answer ≡ pair_lines old.now new.now)) }
{
    let mut report = [0u32; REPORT_ROOM];
    pair::judged(old, new, &mut report)?;
    let olds = reader::load(old, 0)?;
    let news = reader::load(new, 1)?;
    Ok(put_done(text, &olds, &news, &report))
}

fn put_pair(text: &mut [u8; MOST_TEXT], old: &[u8], new: &[u8]) -> usize
    ensures value { (result ≡ length (pair_lines old.now new.now)) × (result ≤ most_text) }
    ensures text_after { text.new ≡ put text.old 0 (pair_lines old.now new.now) }
{
    match put_change(text, old, new) {
        Ok(end) => end,
        Err(answer) => put_refusal(text, answer),
    }
}

// The first 512 bytes are the old block, all the rest the new.
#[tactic(auto, using(std::proofs::lemmas::List::take_min, std::proofs::lemmas::List::drop_min), unfolding(crate::specs::Printed::printed, crate::specs::Printed::old_block, crate::specs::Printed::new_block))]
fn put_text(text: &mut [u8; MOST_TEXT], input: &[u8]) -> usize
    ensures value { (result ≡ length (printed input.now)) × (result ≤ most_text) }
    ensures text_after { text.new ≡ put text.old 0 (printed input.now) }
{
    let (old, new) = input.split_at(BLOCK_SIZE.min(input.len()));
    put_pair(text, old, new)
}

// The text of an input at the front of out, where it fits; the answer is its length, or 0 where out is too short.
// No text is empty, and none is longer than most_text.
#[tactic(auto, using(lines::proofs::Put::put_front))]
pub fn render(input: &[u8], out: &mut [u8]) -> usize
    ensures value { result ≡ next out.old 0 (printed input.now) }
    ensures out_after { out.new ≡ written out.old 0 (printed input.now) }
    ensures bounded { length (printed input.now) ≤ most_text }
{
    let mut text = [0u8; MOST_TEXT];
    let end = put_text(&mut text, input);
    lines::put_bytes(out, 0, &text[..end])
}

// Writes the text of an input.
#[tactic(auto, using(lines::proofs::Put::next_fits, lines::proofs::Put::written_fits, lines::proofs::Put::put_front))]
pub fn write_text<W: Write>(to: &mut W, input: &[u8]) -> io::Result<()>
    ensures { OnOk result (Appends (W.contents to.old) (W.contents to.new) (printed input.now)) }
{
    let mut out = [0u8; MOST_TEXT];
    let end = render(input, &mut out);
    to.write_all(&out[..end])
}
