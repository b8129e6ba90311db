// What the sites report: a ticket, and that they are prepared. RULES, The table; Calls.
#![tactic(auto)]

ghost use Rattle.std.specs.Prelude.{◌≡◌, ◌<◌, OnOk, IfOk};
ghost use Rattle.method.specs.Records.{with_part};
ghost use Rattle.method.specs.Calls.Call.{report_ticket, report_prepared};
ghost use Rattle.method.specs.Calls.{checked, checks};
ghost use Rattle.method.specs.Effects.{step};
ghost use Rattle.reports.specs.Reported.{placed, ticketed, prepared};

use method::{Answer, Answered, Number, Part, Report, Row, Stage, Table, Ticket};
use refusals::Refusal;

fn with_part(row: &Row, s: u8, p: Part) -> Row
    requires { s < 8 }
    ensures answer { result ≡ with_part row.now s p }
{
    let mut changed = *row;
    changed.parts[s as usize] = p;
    changed
}

// What both reports ask first: the slot of the number, and the stage that the site comes to.
fn place(t: &Table, n: Number, s: u8, p: Report) -> Result<(usize, Stage), Refusal>
    ensures answer { result ≡ placed t.now n.0 s p }
    ensures slot { IfOk result (λ x. x.0 < 32) }
    ensures site { OnOk result (s < 8) }
{
    let slot = slots::enter(t, n)?;
    let stage = stages::next_place(&t.rows[slot], s, p)?;
    Ok((slot, stage))
}

// The slot, and its row with the ticket.
fn ticketed(t: &Table, n: Number, s: u8, k: Ticket) -> Result<(usize, Row), Refusal>
    ensures answer { result ≡ checked (checks t.now (report_ticket n.0 s k.0)) (ticketed t.now n.0 s k.0) }
{
    let (slot, stage) = place(t, n, s, Report::Ticket)?;
    let row = &t.rows[slot];
    let base = row.parts[s as usize].base;
    if k <= base {
        return Err(Refusal::NotAbove);
    }
    if rivals::is_taken(t, n, s as usize, k) {
        return Err(Refusal::Taken);
    }
    let part = Part {
        stage,
        base,
        ticket: k,
    };
    Ok((slot, with_part(row, s, part)))
}

// The slot, and its row with the site prepared.
fn prepared(t: &Table, n: Number, s: u8) -> Result<(usize, Row), Refusal>
    ensures answer { result ≡ checked (checks t.now (report_prepared n.0 s)) (prepared t.now n.0 s) }
{
    let (slot, stage) = place(t, n, s, Report::Prepared)?;
    let row = &t.rows[slot];
    let part = row.parts[s as usize];
    Ok((slot, with_part(row, s, Part { stage, ..part })))
}

pub fn report_ticket(t: Table, n: Number, s: u8, k: Ticket) -> Answered<Table>
    ensures answer { result ≡ step t (report_ticket n.0 s k.0) }
{
    match ticketed(&t, n, s, k) {
        Ok((slot, row)) => records::with_row(t, slot, row, Answer::Done),
        Err(r) => records::refuse(t, r),
    }
}

pub fn report_prepared(t: Table, n: Number, s: u8) -> Answered<Table>
    ensures answer { result ≡ step t (report_prepared n.0 s) }
{
    match prepared(&t, n, s) {
        Ok((slot, row)) => records::with_row(t, slot, row, Answer::Done),
        Err(r) => records::refuse(t, r),
    }
}
