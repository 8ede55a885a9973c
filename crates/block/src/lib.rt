// Blocks of 512 bytes: tasks, tables, answers and verdicts. The definitions of the block, of reading and of writing stand in specs/, laws of them in proofs/. No functions.

#![tactic(auto)]

// The numbers of the format, each once.
pub const BLOCK_SIZE: usize = 512;

pub const HEAD_SIZE: usize = 8;

pub const RECORD_SIZE: usize = 16;

pub const ZERO_PLACE: usize = 12;

pub const MOST_TASKS: usize = 30;

pub const CHECK_PLACE: usize = 508;

pub const CHECK_WORDS: usize = 127;

// The mark is two bytes apart, as the definitions have it.
pub const MARK_FIRST: u8 = 0x4D;

pub const MARK_SECOND: u8 = 0x54;

pub const LIST_SIZE: usize = 7;

// What becomes of a task's jobs at the request. A task has it as a number, `kind`.
#[derive(Clone, Copy)]
pub enum Kind {
    Completed,
    Aborted,
    New,
}

// A task, as its record says it. The number `kind` may be that of no kind (decision B1).
#[repr(C)]
#[derive(Clone, Copy)]
pub struct Task {
    pub kind: u8,
    pub priority: u8,
    pub number: u16,
    pub period: u16,
    pub deadline: u16,
    pub execution: u16,
    pub offset: u16,
}

// The tasks of one mode: the first `count` of `tasks`, an array by value, as document 01 asks.
#[derive(Clone, Copy)]
pub struct Table {
    pub tasks: [Task; MOST_TASKS],
    pub count: usize,
}

// What an answer says, each code with the paper's number.
#[derive(Clone, Copy)]
pub enum Code {
    Done = 0,
    BlockLength = 1,
    Check = 2,
    Mark = 3,
    Head = 4,
    Rule = 5,
    Double = 6,
    UnusedRoom = 7,
    Short = 8,
    OldLate = 9,
    NewLate = 10,
    ListLength = 11,
}

// What each function that C calls answers, in numbers, as C reads it. Sides are numbers too, 0 old and 1 new, since C may pass any other.
#[repr(C)]
#[derive(Clone, Copy)]
pub struct Answer {
    pub code: u32,
    pub side: u32,
    pub record: u32,
    pub detail: u32,
}

// What a check says: nothing is wrong, or the answer that refuses.
pub type Verdict = Result<(), Answer>;

// The side of an answer that means neither, as C reads it.
pub const NO_SIDE: u32 = 2;

// The answer of what is done, where nothing else is said.
pub const DONE: Answer = Answer {
    code: Code::Done as u32,
    side: NO_SIDE,
    record: 0,
    detail: 0,
};

// The refusal of a list or a report that is too short.
pub const SHORT: Answer = Answer {
    code: Code::Short as u32,
    side: NO_SIDE,
    record: 0,
    detail: 0,
};

// What the loader gives of a block that is not refused: its mode number and its table.
#[derive(Clone, Copy)]
pub struct Loaded {
    pub mode: u16,
    pub table: Table,
}
