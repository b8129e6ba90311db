// The table that a caller holds. Its one field is private: no other program can make a table, or change one, but by these
// calls. What each call does is defined in crate `method`. RULES, The table; Calls.
#![tactic(auto)]

ghost use Rattle.std.specs.Prelude.{◌≡◌, ◌*◌, ◌≤◌, length, take};
ghost use Rattle.method.specs.Records.{closed as closedTable};
ghost use Rattle.method.specs.Slots.{kept, kept_flat};
ghost use Rattle.method.specs.Conditions.{is_closed};
ghost use Rattle.method.specs.Calls.Call.{open_with, begin as beginCall, report_ticket, report_prepared, abort as abortCall, decide as decideCall, forget as forgetCall, sweep as sweepCall};
ghost use Rattle.kept.specs.Packed.{packed_of};
ghost use Rattle.table.specs.Shut.{shut_table, answer_to, table_after, used_by};

use kept::packed::Kept;
use method::{Answer, Answered, Number, Ticket};

#[derive(Clone, Copy)]
pub struct Table {
    held: method::Table,
}

fn shut(a: Answered<method::Table>) -> Answered<Table>
    ensures answer { result.answer ≡ a.answer }
    ensures table { result.table ≡ shut_table a.table }
{
    Answered {
        table: Table { held: a.table },
        answer: a.answer,
    }
}

// The table to start from: it knows no site, and refuses all calls but open.
pub fn closed() -> Table
    ensures answer { result ≡ shut_table closedTable }
{
    Table {
        held: openings::closed(),
    }
}

pub fn open_with(t: Table, first: Number, floors: &[u32]) -> Answered<Table>
    ensures answer { result.answer ≡ answer_to t (open_with first.0 floors.now) }
    ensures table { result.table ≡ table_after t (open_with first.0 floors.now) }
{
    shut(openings::open_with(t.held, first, floors))
}

// `sites` is a set of sites, site 0 its lowest bit.
pub fn begin(t: Table, sites: u8) -> Answered<Table>
    ensures answer { result.answer ≡ answer_to t (beginCall sites) }
    ensures table { result.table ≡ table_after t (beginCall sites) }
{
    shut(beginnings::begin(t.held, sites))
}

pub fn report_ticket(t: Table, n: Number, s: u8, k: Ticket) -> Answered<Table>
    ensures answer { result.answer ≡ answer_to t (report_ticket n.0 s k.0) }
    ensures table { result.table ≡ table_after t (report_ticket n.0 s k.0) }
{
    shut(reports::report_ticket(t.held, n, s, k))
}

pub fn report_prepared(t: Table, n: Number, s: u8) -> Answered<Table>
    ensures answer { result.answer ≡ answer_to t (report_prepared n.0 s) }
    ensures table { result.table ≡ table_after t (report_prepared n.0 s) }
{
    shut(reports::report_prepared(t.held, n, s))
}

pub fn abort(t: Table, n: Number) -> Answered<Table>
    ensures answer { result.answer ≡ answer_to t (abortCall n.0) }
    ensures table { result.table ≡ table_after t (abortCall n.0) }
{
    shut(endings::abort(t.held, n))
}

pub fn decide(t: Table, n: Number) -> Answered<Table>
    ensures answer { result.answer ≡ answer_to t (decideCall n.0) }
    ensures table { result.table ≡ table_after t (decideCall n.0) }
{
    shut(decisions::decide(t.held, n))
}

pub fn forget(t: Table, n: Number) -> Answered<Table>
    ensures answer { result.answer ≡ answer_to t (forgetCall n.0) }
    ensures table { result.table ≡ table_after t (forgetCall n.0) }
{
    shut(endings::forget(t.held, n))
}

pub fn sweep(t: Table) -> Answered<Table>
    ensures answer { result.answer ≡ answer_to t sweepCall }
    ensures table { result.table ≡ table_after t sweepCall }
{
    shut(sweeps::sweep(t.held))
}

// Has it not been opened yet?
pub fn is_closed(t: &Table) -> bool
    ensures answer { result ≡ is_closed t.now.held }
{
    t.held.sites == 0
}

// The kept rows as a ticket table, by slot.
pub fn kept_rows(t: &Table) -> Kept
    ensures answer { result ≡ packed_of t.now.held }
    ensures items { take (9 * result.count) result.rows ≡ kept_flat t.now.held }
    ensures count { result.count ≡ length (kept t.now.held) }
    ensures whole { length (kept_flat t.now.held) ≡ 9 * result.count }
    ensures few { result.count ≤ 32 }
{
    kept::packed::rows(&t.held)
}

// How many sites a transaction uses: 0 for a number that the table does not know.
pub fn sites_used(t: &Table, n: Number) -> u32
    ensures answer { result ≡ used_by t.now.held n.0 }
{
    match slots::enter(&t.held, n) {
        Ok(slot) => sites::used(t.held.rows[slot].sites),
        Err(_) => 0,
    }
}
