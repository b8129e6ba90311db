// The records of the method: a table of transactions, and what a call answers. What each call does is defined in specs/.
// RULES, The table. No function stands here: the fields are open, so that each group of calls can be a crate of its own;
// crate `table` shuts them.
// How many transactions a table holds, and how many sites it can have. RULES, Limits.
#![tactic(auto)]

use refusals::Refusal;

pub const SLOTS: usize = 32;

pub const SITES: usize = 8;

// A number is counted by the table, a ticket by its site: the two are never mixed up.
#[derive(Clone, Copy, PartialEq, Eq, PartialOrd, Ord)]
pub struct Number(pub u32);

#[derive(Clone, Copy, PartialEq, Eq, PartialOrd, Ord)]
pub struct Ticket(pub u32);

// How far one site of a transaction has come.
#[derive(Clone, Copy, PartialEq, Eq)]
pub enum Stage {
    Begun,
    Ticketed,
    Prepared,
}

// What a site reports.
#[derive(Clone, Copy, PartialEq, Eq)]
pub enum Report {
    Ticket,
    Prepared,
}

#[derive(Clone, Copy, PartialEq, Eq)]
pub enum State {
    Free,
    Active,
    Committed,
}

// One site of a transaction. Ticket 0 is none.
#[derive(Clone, Copy)]
pub struct Part {
    pub stage: Stage,
    pub base: Ticket,
    pub ticket: Ticket,
}

// A slot. `last` is the last number begun when the transaction committed.
#[derive(Clone, Copy)]
pub struct Row {
    pub state: State,
    pub number: Number,
    pub sites: u8,
    pub last: Number,
    pub parts: [Part; SITES],
}

// `sites` is 0 in a closed table. `last` is the last number begun, `high` the highest committed ticket of each site.
#[derive(Clone, Copy)]
pub struct Table {
    pub sites: u8,
    pub last: Number,
    pub high: [Ticket; SITES],
    pub rows: [Row; SLOTS],
}

// What a call that nothing refuses answers.
#[derive(Clone, Copy)]
pub enum Answer {
    Done,
    Begun(Number),
    Commit(Number),
    Cycle(Number),
    Swept(u32),
}

// What a call leaves and says: the table, and the answer or the refusal. One type for the open table here and for the shut one of
// crate `table`; and for whatever a refusal is told by, which in every call is one of RULES' fourteen.
#[derive(Clone, Copy)]
pub struct Answered<T, R = Refusal> {
    pub table: T,
    pub answer: Result<Answer, R>,
}
