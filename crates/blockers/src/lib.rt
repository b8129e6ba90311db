// Who keeps a committed transaction from being forgotten: a kept one that goes before it, or an older active one that holds it back.
// RULES, Graph and decision; Forgetting.
#![tactic(auto)]

ghost use Rattle.std.specs.Prelude.{◌≡◌};
ghost use Rattle.method.specs.Conditions.{has_pred, held_back};

use method::{Row, State, Table};

// Does a kept committed one have an arrow to it?
#[tactic(auto, unfolding(method::specs::Conditions::has_pred, method::specs::Slots::kept))]
pub fn has_pred(t: &Table, r: &Row) -> bool
    ensures answer { result ≡ has_pred t.now r.now }
{
    let tickets = records::tickets_of(r);
    t.rows
        .iter()
        .filter(|q| q.state == State::Committed)
        .any(|q| orders::goes_before(&records::tickets_of(q), &tickets))
}

// Has an active one a number at or below the last recorded at its commit?
#[tactic(auto, unfolding(method::specs::Conditions::held_back, method::specs::Slots::active_rows))]
pub fn is_held_back(t: &Table, r: &Row) -> bool
    ensures answer { result ≡ held_back t.now r.now }
{
    t.rows
        .iter()
        .filter(|a| a.state == State::Active)
        .any(|a| a.number <= r.last)
}
