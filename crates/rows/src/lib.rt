// The rows of a pair: the row of each task, or the first late one.

#![tactic(auto)]

ghost use Rattle.std.specs.Prelude.{◌≡◌, ◌+◌, ◌*◌, ◌<◌, ◌≤◌, length};
ghost use Rattle.block.specs.Answers.{first_of};
ghost use Rattle.block.specs.Block.{listed};
ghost use Rattle.block.specs.Legal.{Legal, Tabled};
ghost use Rattle.above.specs.Roll.{Sound};
ghost use Rattle.rows.specs.Rows.{row_size, rows_of, late_checks, reported};
ghost use Rattle.rows.specs.Fill.{row_by_rolls, Filled};

use above::Rolled;
use block::{Answer, Code, MOST_TASKS, Table, Task, Verdict};
use judge::{Judging, Room};

// Three numbers a row.
pub const ROW_SIZE: usize = 3;

// Room for the rows of any pair.
pub const REPORT_ROOM: usize = ROW_SIZE * (MOST_TASKS + MOST_TASKS);

// The number of the code of a late task, as the clause has it.
fn late_code(side: u32) -> u32
    requires { side ≤ 1 }
    ensures { result ≡ 9 + side }
{
    let code = if side == 0 {
        Code::OldLate
    } else {
        Code::NewLate
    };
    code as u32
}

// The rows of the tasks of one side, put to the front of the numbers, or the refusal of the first late one. The rolls come apart, since
// `Judging` is made of them here.
fn fill(
    numbers: &mut [u32],
    room: &mut Room,
    old: &[Rolled],
    new: &[Rolled],
    tasks: &[Task],
    side: u32,
) -> Verdict
    requires sound { Sound old.now × Sound new.now × (side ≤ 1) × Legal side tasks.now }
    requires room { row_size * length tasks.now ≤ length numbers.old }
    ensures { Filled side (row_by_rolls old.now new.now) tasks.now numbers.new result }
{
    // by places: of what a loop writes through an iterator the check knows lengths alone
    for (j, i) in tasks.iter().enumerate() {
        let judging = Judging { old, new, task: *i };
        // not by `map_err`, whose closure needs two more locals and a law
        match judging.row_of(room) {
            Ok(r) => {
                let at = ROW_SIZE * j;
                numbers[at..at + ROW_SIZE].copy_from_slice(&[r.first, r.second, r.third]);
            }
            Err(detail) => {
                return Err(Answer {
                    code: late_code(side),
                    side,
                    record: j as u32,
                    detail,
                });
            }
        }
    }
    Ok(())
}

// The rows of a pair of tables, put to the front of the report, or the first late task. The tables come apart, as in `pair::settle`.
pub fn rows_of(old: Table, new: Table, report: &mut [u32]) -> Verdict
    requires { Tabled 0 old × Tabled 1 new × (row_size * (old.count + new.count) ≤ length report.old) }
    ensures { (result ≡ first_of (late_checks (listed old) (listed new))) × (report.new ≡ reported result (rows_of (listed old) (listed new)) report.old) }
{
    let olds = &old.tasks[..old.count];
    let news = &new.tasks[..new.count];
    let mut old_rolls = [Rolled::NONE; MOST_TASKS];
    let mut new_rolls = [Rolled::NONE; MOST_TASKS];
    above::roll(&mut old_rolls, olds);
    above::roll(&mut new_rolls, news);
    let old_rolls = &old_rolls[..old.count];
    let new_rolls = &new_rolls[..new.count];
    let mut room = Room::EMPTY;
    let mut numbers = [0u32; REPORT_ROOM];
    let (front, back) = numbers.split_at_mut(ROW_SIZE * old.count);
    fill(front, &mut room, old_rolls, new_rolls, olds, 0)?;
    fill(back, &mut room, old_rolls, new_rolls, news, 1)?;
    let size = ROW_SIZE * (old.count + new.count);
    report[..size].copy_from_slice(&numbers[..size]);
    Ok(())
}
