// Decide: a fully prepared transaction commits if it makes no cycle among the kept committed ones. RULES, Graph and decision.
#![tactic(auto)]

ghost use Rattle.std.specs.Prelude.{◌≡◌, ◌<◌, IfOk};
ghost use Rattle.method.specs.Slots.{slot_of};
ghost use Rattle.method.specs.Calls.{checked, checks};
ghost use Rattle.method.specs.Calls.Call.{decide as decideCall};
ghost use Rattle.method.specs.Effects.{step};
ghost use Rattle.decisions.specs.Ways.{committing};

use method::{Answer, Answered, Number, Row, State, Table};
use refusals::Refusal;

// The row is committed and records the last number begun, and the highest tickets of its sites rise.
fn commit(t: Table, slot: usize, n: Number) -> Answered<Table>
    requires { slot < 32 }
    ensures answer { result ≡ committing t slot n.0 }
{
    let row = t.rows[slot];
    let mut table = t;
    table.high = parts::raised(t.high, &row);
    table.rows[slot] = Row {
        state: State::Committed,
        last: t.last,
        ..row
    };
    Answered {
        table,
        answer: Ok(Answer::Commit(n)),
    }
}

// The slot of one that is fully prepared.
fn ready(t: &Table, n: Number) -> Result<usize, Refusal>
    ensures answer { result ≡ checked (checks t.now (decideCall n.0)) (slot_of t.now n.0) }
    ensures inside { IfOk result (λ i. i < 32) }
{
    let slot = slots::enter(t, n)?;
    if !parts::is_prepared(&t.rows[slot]) {
        return Err(Refusal::OutOfTurn);
    }
    Ok(slot)
}

pub fn decide(t: Table, n: Number) -> Answered<Table>
    ensures answer { result ≡ step t (decideCall n.0) }
{
    match ready(&t, n) {
        Err(r) => records::refuse(t, r),
        Ok(slot) => {
            let tickets = kept::aligned::tickets(&t, Some(slot));
            if paths::has_cycle(&tickets) {
                return records::without(t, slot, Answer::Cycle(n));
            }
            commit(t, slot, n)
        }
    }
}
