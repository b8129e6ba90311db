// The records of a table: a free row, a call refused, a slot filled or freed. RULES, The table.
#![tactic(auto)]

ghost use Rattle.std.specs.Prelude.{◌≡◌, map, Ok, Err};
ghost use Rattle.method.specs.declared.Part.{Part as Parts};
ghost use Rattle.method.specs.Records.{free_row, with_row, tickets_of};
ghost use Rattle.method.specs.Effects.{answered};

use method::{Answer, Answered, Number, Part, Row, SITES, SLOTS, Stage, State, Table, Ticket};

// The tickets of parts that stand alone: behind a reference to a row a proof does not see how many there are.
fn tickets_in(parts: &[Part; SITES]) -> [u32; SITES]
    ensures answer { result ≡ map (λ (p : Parts). p.ticket.0) parts.now }
{
    parts.map(|p| p.ticket.0)
}

// The tickets of a row, site by site.
#[tactic(auto, unfolding(method::specs::Records::tickets_of))]
pub fn tickets_of(r: &Row) -> [u32; SITES]
    ensures answer { result ≡ tickets_of r.now }
{
    tickets_in(&r.parts)
}

// What a slot holds while no transaction has it.
pub fn free_row() -> Row
    ensures answer { result ≡ free_row }
{
    let none = Part {
        stage: Stage::Begun,
        base: Ticket(0),
        ticket: Ticket(0),
    };
    Row {
        state: State::Free,
        number: Number(0),
        sites: 0,
        last: Number(0),
        parts: [none; SITES],
    }
}

// A refusal leaves the table as it is, and is told as it is, whatever it is told by.
pub fn refuse<R>(table: Table, r: R) -> Answered<Table, R>
    ensures answer { result ≡ record { table = table; answer = Err r } }
{
    let answer = Err(r);
    Answered { table, answer }
}

// The table with another row in a slot. There are 32 slots: of another one nothing changes.
pub fn with_row(t: Table, slot: usize, row: Row, a: Answer) -> Answered<Table>
    ensures answer { result ≡ answered (with_row t slot row) (Ok a) }
{
    let mut table = t;
    if slot < SLOTS {
        table.rows[slot] = row;
    }
    Answered {
        table,
        answer: Ok(a),
    }
}

// The table with a slot freed.
pub fn without(t: Table, slot: usize, a: Answer) -> Answered<Table>
    ensures answer { result ≡ answered (with_row t slot free_row) (Ok a) }
{
    with_row(t, slot, free_row(), a)
}
