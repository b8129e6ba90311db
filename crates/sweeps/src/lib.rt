// Sweep: every kept row goes that no path of arrows reaches from a row that is held back. RULES, Forgetting.
#![tactic(auto)]

ghost use Rattle.std.specs.Prelude.{◌≡◌, ◌&&◌, not};
ghost use Rattle.method.specs.Records.{committed};
ghost use Rattle.method.specs.Calls.Call.{sweep as sweepCall};
ghost use Rattle.method.specs.Conditions.{held_back};
ghost use Rattle.method.specs.Effects.{effect, step};
ghost use Rattle.sweeps.specs.Marks.{HeldMarks, StayMarks};

use method::{Answer, Answered, Row, State, Table};
use refusals::Refusal;
use std::array;

// Is the row kept, and held back by an active transaction?
fn is_held(t: &Table, row: &Row) -> bool
    ensures answer { result ≡ committed row.now && held_back t.now row.now }
{
    row.state == State::Committed && blockers::is_held_back(t, row)
}

fn held(t: &Table) -> [bool; 32]
    ensures answer { HeldMarks t.now result }
{
    array::from_fn(|i| is_held(t, &t.rows[i]))
}

fn goes(row: &Row, stays: bool) -> bool
    ensures answer { result ≡ committed row.now && not stays }
{
    row.state == State::Committed && !stays
}

// The rows that do not stay go, and are counted.
fn cleared(t: Table, stay: [bool; 32]) -> Answered<Table>
    requires { StayMarks t stay }
    ensures answer { result ≡ effect t sweepCall }
{
    let mut table = t;
    let mut n = 0;
    for (i, row) in table.rows.iter_mut().enumerate() {
        if goes(row, stay[i]) {
            *row = records::free_row();
            n += 1;
        }
    }
    Answered {
        table,
        answer: Ok(Answer::Swept(n)),
    }
}

pub fn sweep(t: Table) -> Answered<Table>
    ensures answer { result ≡ step t sweepCall }
{
    if t.sites == 0 {
        return records::refuse(t, Refusal::NotOpen);
    }
    let tickets = kept::aligned::tickets(&t, None);
    let marks = held(&t);
    let stay = paths::reached(&tickets, marks);
    cleared(t, stay)
}
