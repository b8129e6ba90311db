// Who else has a ticket: check 6 of a report. RULES, Refusals.
#![tactic(auto)]

ghost use Rattle.std.specs.Prelude.{◌≡◌};
ghost use Rattle.method.specs.Records.{part_at};
ghost use Rattle.method.specs.Conditions.{holds_other, taken};

use method::{Number, Row, State, Table, Ticket};

// The ticket of a row at a site: 0 for none, and at a site that no row has.
fn ticket_at(row: &Row, s: usize) -> Ticket
    ensures { result ≡ (part_at row.now s).ticket }
{
    row.parts.get(s).map_or(Ticket(0), |p| p.ticket)
}

fn holds_other(r: &Row, n: Number, s: usize, k: Ticket) -> bool
    ensures answer { result ≡ holds_other n.0 s k.0 r.now }
{
    r.state != State::Free && r.number != n && ticket_at(r, s) == k
}

// Does another transaction in the table hold the ticket at the site?
pub fn is_taken(t: &Table, n: Number, s: usize, k: Ticket) -> bool
    ensures answer { result ≡ taken t.now n.0 s k.0 }
{
    t.rows.iter().any(|r| holds_other(r, n, s, k))
}
