// The table before its opening, and the opening. RULES, Calls.
#![tactic(auto)]

ghost use Rattle.std.specs.Prelude.{◌≡◌, ◌<◌, ◌≤◌, length, Ok, OnOk};
ghost use Rattle.method.specs.Records.{closed as closedTable};
ghost use Rattle.method.specs.Conditions.{bad_opening};
ghost use Rattle.method.specs.Calls.{checked, checks};
ghost use Rattle.method.specs.Calls.Call.{open_with};
ghost use Rattle.method.specs.Effects.{padded as paddedTickets, opened as openedTable, answered, step};

use method::{Answer, Answered, Number, SITES, SLOTS, Table, Ticket};
use refusals::Refusal;

// The table to start from: it knows no site, and refuses all calls but open.
pub fn closed() -> Table
    ensures answer { result ≡ closedTable }
{
    Table {
        sites: 0,
        last: Number(0),
        high: [Ticket(0); SITES],
        rows: [records::free_row(); SLOTS],
    }
}

// No floors, over 8 of them, or first number 0.
fn is_bad_opening(first: Number, floors: &[u32]) -> bool
    ensures answer { result ≡ bad_opening first.0 floors.now }
{
    floors.is_empty() || floors.len() > SITES || first == Number(0)
}

// The floors, and zeros for the sites that the table lacks.
#[tactic(auto, unfolding(method::specs::Effects::padded))]
fn padded(floors: &[u32]) -> [Ticket; SITES]
    requires { length floors.now ≤ 8 }
    ensures answer { result ≡ paddedTickets 8 floors.now }
{
    let mut high = [Ticket(0); SITES];
    for (s, floor) in floors.iter().enumerate() {
        high[s] = Ticket(*floor);
    }
    high
}

#[tactic(auto, unfolding(method::specs::Effects::opened))]
fn opened(first: Number, floors: &[u32]) -> Answered<Table>
    requires { (length floors.now ≤ 8) × (0 < first.0) }
    ensures answer { result ≡ answered (openedTable first.0 floors.now) (Ok Answer.Done) }
{
    Answered {
        table: Table {
            sites: floors.len() as u8,
            last: Number(first.0 - 1),
            high: padded(floors),
            rows: [records::free_row(); SLOTS],
        },
        answer: Ok(Answer::Done),
    }
}

// May the table be opened like this?
fn may_open(t: &Table, first: Number, floors: &[u32]) -> Result<(), Refusal>
    ensures answer { result ≡ checked (checks t.now (open_with first.0 floors.now)) tt }
    ensures good { OnOk result ((length floors.now ≤ 8) × (0 < first.0)) }
{
    if t.sites != 0 {
        return Err(Refusal::OutOfTurn);
    }
    if is_bad_opening(first, floors) {
        return Err(Refusal::NotOpen);
    }
    Ok(())
}

pub fn open_with(t: Table, first: Number, floors: &[u32]) -> Answered<Table>
    ensures answer { result ≡ step t (open_with first.0 floors.now) }
{
    match may_open(&t, first, floors) {
        Ok(()) => opened(first, floors),
        Err(r) => records::refuse(t, r),
    }
}
