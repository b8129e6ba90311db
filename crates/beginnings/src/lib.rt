// The call that gives a transaction its number, its slot and its bases: begin. RULES, Calls.
#![tactic(auto)]

ghost use Rattle.std.specs.Prelude.{◌≡◌, ◌<◌, ◌+◌, length, replicate, Ok, IfOk, OnOk};
ghost use Rattle.sites.specs.Sites.{sites_of};
ghost use Rattle.method.specs.Records.{number, ticket, part, no_part, with_row, with_last};
ghost use Rattle.method.specs.Stages.{first_stage};
ghost use Rattle.method.specs.Slots.{free_slot};
ghost use Rattle.method.specs.Conditions.{bad_sites};
ghost use Rattle.method.specs.Calls.{checked, checks};
ghost use Rattle.method.specs.Calls.Call.{begin as beginCall};
ghost use Rattle.method.specs.Effects.{based as basedParts, new_row, answered, step};

use method::{Answer, Answered, Number, Part, Row, SITES, Stage, State, Table, Ticket};
use refusals::Refusal;

// An empty list of sites, or one with a site that the table lacks.
#[tactic(auto, using(crate::proofs::BeginLaws::bad_of_empty, crate::proofs::BeginLaws::bad_of_outside))]
fn are_bad_sites(t: &Table, x: u8) -> bool
    ensures answer { result ≡ bad_sites t.now x }
{
    x == 0 || sites::goes_outside(x, t.sites)
}

// A site at the first stage.
fn begun_at(base: Ticket) -> Part
    ensures { result ≡ part first_stage base (ticket 0) }
{
    Part {
        stage: Stage::Begun,
        base,
        ticket: Ticket(0),
    }
}

// Each listed site at the first stage, its base the highest committed ticket there.
#[tactic(auto, using(sites::proofs::SitesLaws::first_lt), unfolding(method::specs::Effects::based))]
fn based(high: &[Ticket; SITES], x: u8) -> [Part; SITES]
    ensures answer { result ≡ basedParts high.now (sites_of x) (replicate 8 no_part) }
{
    let mut parts = [begun_at(Ticket(0)); SITES];
    for s in sites::each(x) {
        parts[s] = begun_at(high[s]);
    }
    parts
}

#[tactic(auto, unfolding(method::specs::Effects::new_row))]
fn begun(mut t: Table, x: u8, slot: usize) -> Answered<Table>
    requires { (slot < 32) × (t.last.0 < 4294967295) }
    ensures answer { result ≡ answered (with_row (with_last t (number (t.last.0 + 1))) slot (new_row t x)) (Ok (Answer.Begun (number (t.last.0 + 1)))) }
{
    let n = Number(t.last.0 + 1);
    t.last = n;
    t.rows[slot] = Row {
        state: State::Active,
        number: n,
        sites: x,
        last: Number(0),
        parts: based(&t.high, x),
    };
    Answered {
        table: t,
        answer: Ok(Answer::Begun(n)),
    }
}

// The slot that the transaction gets.
fn room(t: &Table, x: u8) -> Result<usize, Refusal>
    ensures answer { result ≡ checked (checks t.now (beginCall x)) (free_slot t.now) }
    ensures inside { IfOk result (λ i. i < 32) }
    ensures number { OnOk result (t.now.last.0 < 4294967295) }
{
    if t.sites == 0 {
        return Err(Refusal::NotOpen);
    }
    if are_bad_sites(t, x) {
        return Err(Refusal::BadSite);
    }
    if t.last.0 == u32::MAX {
        return Err(Refusal::UsedUp);
    }
    slots::lowest_free(t).ok_or(Refusal::Full)
}

pub fn begin(t: Table, x: u8) -> Answered<Table>
    ensures answer { result ≡ step t (beginCall x) }
{
    match room(&t, x) {
        Ok(slot) => begun(t, x, slot),
        Err(r) => records::refuse(t, r),
    }
}
