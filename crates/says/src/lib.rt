// What the programs that run edge cases print, to any writer: each function writes the bytes that its contract says (specs/Said.antt and specs/Lines.antt), or fails.

#![tactic(auto)]

ghost use Rattle.std.specs.Prelude.{◌≡◌, ◌<◌, OnOk, MatchOption, cond, [], ◌∷◌, length};
ghost use Rattle.std.specs.Io.KnownBytes.{Appends};
ghost use Rattle.std.specs.List.{FoldsTo};
ghost use Rattle.says.specs.Lines.{lines_of, Answers};
ghost use Rattle.says.specs.Said.{said_numbers, said_answer, said_kept, said_outcome, said_back, said_check, said_task, said_table, said_loading, said_loaded, said_entry};

use block::{Answer, BLOCK_SIZE, CHECK_PLACE, DONE, LIST_SIZE, Loaded, MOST_TASKS, Table, Task};
use std::io;
use std::io::Write;

// A text, then each number with a space before it.
pub fn say_numbers<W: Write>(to: &mut W, text: &[u8], numbers: &[u32]) -> io::Result<()>
    ensures { OnOk result (Appends (W.contents to.old) (W.contents to.new) (said_numbers text.now numbers.now)) }
{
    to.write_all(text)?;
    for number in numbers {
        write!(to, " {number}")?;
    }
    Ok(())
}

// Here and not as `Display`, since `Answer` is of block, which has no functions.
fn say_answer<W: Write>(to: &mut W, a: Answer) -> io::Result<()>
    ensures { OnOk result (Appends (W.contents to.old) (W.contents to.new) (said_answer a)) }
{
    say_numbers(to, b":", &[a.code, a.side, a.record, a.detail])
}

// Of two texts the first where a fact holds, and else the second.
pub fn say_whether<W: Write>(to: &mut W, holds: bool, yes: &[u8], no: &[u8]) -> io::Result<()>
    ensures { OnOk result (Appends (W.contents to.old) (W.contents to.new) (cond holds yes.now no.now)) }
{
    to.write_all(if holds { yes } else { no })
}

// Whether memory is as it was.
pub fn say_kept<W: Write>(to: &mut W, kept: bool) -> io::Result<()>
    ensures { OnOk result (Appends (W.contents to.old) (W.contents to.new) (said_kept kept)) }
{
    say_whether(to, kept, b" kept", b" changed")
}

// Whether a way back, from block to list or from list to block, gives the same.
pub fn say_back<W: Write>(to: &mut W, same: bool) -> io::Result<()>
    ensures { OnOk result (Appends (W.contents to.old) (W.contents to.new) (said_back same)) }
{
    say_whether(to, same, b", back same", b", back other")
}

// An answer, and whether the lent memory is as it was.
pub fn say_outcome<W: Write>(to: &mut W, a: Answer, kept: bool) -> io::Result<()>
    ensures { OnOk result (Appends (W.contents to.old) (W.contents to.new) (said_outcome a kept)) }
{
    say_answer(to, a)?;
    say_kept(to, kept)
}

// The check of a whole block.
pub fn say_check<W: Write>(to: &mut W, bytes: &[u8]) -> io::Result<()>
    ensures { OnOk result (Appends (W.contents to.old) (W.contents to.new) (said_check bytes.now)) }
{
    if bytes.len() == BLOCK_SIZE {
        let check = words::word_at(bytes, CHECK_PLACE);
        write!(to, ", check {check}")?;
    }
    Ok(())
}

fn say_task<W: Write>(to: &mut W, x: Task) -> io::Result<()>
    ensures { OnOk result (Appends (W.contents to.old) (W.contents to.new) (said_task x)) }
{
    let mut entry = [0; LIST_SIZE];
    numbers::put_numbers(&mut entry, x);
    say_numbers(to, b",", &entry)
}

// The count, and the first, the second and the last of a table's places.
fn say_table<W: Write>(to: &mut W, table: &Table) -> io::Result<()>
    ensures { OnOk result (Appends (W.contents to.old) (W.contents to.new) (said_table table.now)) }
{
    write!(to, ", tasks {}", table.count)?;
    say_task(to, table.tasks[0])?;
    say_task(to, table.tasks[1])?;
    say_task(to, table.tasks[MOST_TASKS - 1])
}

fn say_loading<W: Write>(to: &mut W, a: Answer, mode: u16, table: &Table) -> io::Result<()>
    ensures { OnOk result (Appends (W.contents to.old) (W.contents to.new) (said_loading a mode table.now)) }
{
    say_answer(to, a)?;
    write!(to, ", mode {mode}")?;
    say_table(to, table)
}

// What a loading gives: the answer, the mode number, the table; of a refusal mode 0 and the table without tasks.
pub fn say_loaded<W: Write>(to: &mut W, loaded: Result<Loaded, Answer>) -> io::Result<()>
    ensures { OnOk result (Appends (W.contents to.old) (W.contents to.new) (said_loaded loaded)) }
{
    match loaded {
        Ok(Loaded { mode, table }) => say_loading(to, DONE, mode, &table),
        Err(a) => say_loading(to, a, 0, &tasks::no_tasks()),
    }
}

// Task k of a list, where it has one.
pub fn say_entry<W: Write>(to: &mut W, list: &[u32], k: usize) -> io::Result<()>
    ensures { OnOk result (Appends (W.contents to.old) (W.contents to.new) (said_entry list.now k)) }
{
    if k < MOST_TASKS
        && let Some(entry) = list.get(LIST_SIZE * k..LIST_SIZE * k + LIST_SIZE)
    {
        say_numbers(to, b",", entry)?;
    }
    Ok(())
}

// The first line of a text, and what stands behind its line feed.
fn first_line(text: &[u8]) -> Option<(&[u8], &[u8])>
    ensures { MatchOption result (text.now ≡ []) (λ cut. (lines_of text.now ≡ cut.0.now ∷ lines_of cut.1.now) × (length cut.1.now < length text.now)) }
{
    match text.iter().position(|b| *b == b'\n') {
        Some(end) => Some((&text[..end], &text[end + 1..])),
        None if text.is_empty() => None,
        None => Some((text, &[])),
    }
}

// Each line of a text as it stands, behind it what `answer` prints, and a line feed.
pub fn say_lines<W: Write, F: FnMut(&mut W, &[u8]) -> io::Result<()>>(
    to: &mut W,
    text: &[u8],
    mut answer: F,
) -> io::Result<()>
    requires { F.IsAlwaysCallable answer }
    ensures { OnOk result ((last : F) × FoldsTo (Answers W.contents F.FnMut) (answer, to.old) (lines_of text.now) (last, to.new)) }
{
    // Not `for line in text.split_inclusive(..)`: in a generic function the check can't state such a loop's invariant.
    let mut rest = text;
    while let Some((line, behind)) = first_line(rest) {
        to.write_all(line)?;
        answer(to, line)?;
        to.write_all(b"\n")?;
        rest = behind;
    }
    Ok(())
}
