// The calls that free a slot at the caller's word: abort and forget. RULES, Calls.
#![tactic(auto)]

ghost use Rattle.std.specs.Prelude.{◌≡◌};
ghost use Rattle.method.specs.Slots.{slot_of};
ghost use Rattle.method.specs.Conditions.{may_not_forget};
ghost use Rattle.method.specs.Calls.{checked, checks};
ghost use Rattle.method.specs.Calls.Call.{abort as abortCall, forget as forgetCall};
ghost use Rattle.method.specs.Effects.{step};

use method::{Answer, Answered, Number, Row, State, Table};
use refusals::Refusal;

// The slot of one that may be aborted.
fn abortable(t: &Table, n: Number) -> Result<usize, Refusal>
    ensures answer { result ≡ checked (checks t.now (abortCall n.0)) (slot_of t.now n.0) }
{
    let slot = slots::enter(t, n)?;
    if t.rows[slot].state != State::Active {
        return Err(Refusal::OutOfTurn);
    }
    Ok(slot)
}

// Does another one keep the row from being forgotten?
fn may_not_forget(t: &Table, row: &Row) -> bool
    ensures answer { result ≡ may_not_forget t.now row.now }
{
    blockers::has_pred(t, row) || blockers::is_held_back(t, row)
}

// The slot of one that may be forgotten.
fn forgettable(t: &Table, n: Number) -> Result<usize, Refusal>
    ensures answer { result ≡ checked (checks t.now (forgetCall n.0)) (slot_of t.now n.0) }
{
    let slot = slots::enter(t, n)?;
    let row = &t.rows[slot];
    if row.state != State::Committed {
        return Err(Refusal::OutOfTurn);
    }
    if may_not_forget(t, row) {
        return Err(Refusal::TooEarly);
    }
    Ok(slot)
}

pub fn abort(t: Table, n: Number) -> Answered<Table>
    ensures answer { result ≡ step t (abortCall n.0) }
{
    match abortable(&t, n) {
        Ok(slot) => records::without(t, slot, Answer::Done),
        Err(r) => records::refuse(t, r),
    }
}

pub fn forget(t: Table, n: Number) -> Answered<Table>
    ensures answer { result ≡ step t (forgetCall n.0) }
{
    match forgettable(&t, n) {
        Ok(slot) => records::without(t, slot, Answer::Done),
        Err(r) => records::refuse(t, r),
    }
}
