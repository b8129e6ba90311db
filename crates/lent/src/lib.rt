// The calls on a table that is lent: a copy goes to the call of crate `table`, and what it left is stored back. For code that
// cannot lend a struct itself, each has a second form that takes the table, lends it for the one call and hands it back.
// RULES, Calls.
#![tactic(auto)]

ghost use Rattle.std.specs.Prelude.{◌≡◌};
ghost use Rattle.method.specs.Calls.Call.{open_with, begin as beginCall, report_ticket, report_prepared, abort as abortCall, decide as decideCall, forget as forgetCall, sweep as sweepCall};
ghost use Rattle.table.specs.Shut.{answer_to, table_after};

use method::{Answer, Answered, Number, Ticket};
use refusals::Refusal;
use table::Table;

pub fn open_with(t: &mut Table, first: Number, floors: &[u32]) -> Result<Answer, Refusal>
    ensures answer { result ≡ answer_to t.old (open_with first.0 floors.now) }
    ensures table { t.new ≡ table_after t.old (open_with first.0 floors.now) }
{
    let r = table::open_with(*t, first, floors);
    *t = r.table;
    r.answer
}

pub fn lend_open_with(mut t: Table, first: Number, floors: &[u32]) -> Answered<Table>
    ensures answer { result.answer ≡ answer_to t (open_with first.0 floors.now) }
    ensures table { result.table ≡ table_after t (open_with first.0 floors.now) }
{
    let a = open_with(&mut t, first, floors);
    Answered {
        table: t,
        answer: a,
    }
}

pub fn begin(t: &mut Table, sites: u8) -> Result<Answer, Refusal>
    ensures answer { result ≡ answer_to t.old (beginCall sites) }
    ensures table { t.new ≡ table_after t.old (beginCall sites) }
{
    let r = table::begin(*t, sites);
    *t = r.table;
    r.answer
}

pub fn lend_begin(mut t: Table, sites: u8) -> Answered<Table>
    ensures answer { result.answer ≡ answer_to t (beginCall sites) }
    ensures table { result.table ≡ table_after t (beginCall sites) }
{
    let a = begin(&mut t, sites);
    Answered {
        table: t,
        answer: a,
    }
}

pub fn report_ticket(t: &mut Table, n: Number, s: u8, k: Ticket) -> Result<Answer, Refusal>
    ensures answer { result ≡ answer_to t.old (report_ticket n.0 s k.0) }
    ensures table { t.new ≡ table_after t.old (report_ticket n.0 s k.0) }
{
    let r = table::report_ticket(*t, n, s, k);
    *t = r.table;
    r.answer
}

pub fn lend_report_ticket(mut t: Table, n: Number, s: u8, k: Ticket) -> Answered<Table>
    ensures answer { result.answer ≡ answer_to t (report_ticket n.0 s k.0) }
    ensures table { result.table ≡ table_after t (report_ticket n.0 s k.0) }
{
    let a = report_ticket(&mut t, n, s, k);
    Answered {
        table: t,
        answer: a,
    }
}

pub fn report_prepared(t: &mut Table, n: Number, s: u8) -> Result<Answer, Refusal>
    ensures answer { result ≡ answer_to t.old (report_prepared n.0 s) }
    ensures table { t.new ≡ table_after t.old (report_prepared n.0 s) }
{
    let r = table::report_prepared(*t, n, s);
    *t = r.table;
    r.answer
}

pub fn lend_report_prepared(mut t: Table, n: Number, s: u8) -> Answered<Table>
    ensures answer { result.answer ≡ answer_to t (report_prepared n.0 s) }
    ensures table { result.table ≡ table_after t (report_prepared n.0 s) }
{
    let a = report_prepared(&mut t, n, s);
    Answered {
        table: t,
        answer: a,
    }
}

pub fn abort(t: &mut Table, n: Number) -> Result<Answer, Refusal>
    ensures answer { result ≡ answer_to t.old (abortCall n.0) }
    ensures table { t.new ≡ table_after t.old (abortCall n.0) }
{
    let r = table::abort(*t, n);
    *t = r.table;
    r.answer
}

pub fn lend_abort(mut t: Table, n: Number) -> Answered<Table>
    ensures answer { result.answer ≡ answer_to t (abortCall n.0) }
    ensures table { result.table ≡ table_after t (abortCall n.0) }
{
    let a = abort(&mut t, n);
    Answered {
        table: t,
        answer: a,
    }
}

pub fn decide(t: &mut Table, n: Number) -> Result<Answer, Refusal>
    ensures answer { result ≡ answer_to t.old (decideCall n.0) }
    ensures table { t.new ≡ table_after t.old (decideCall n.0) }
{
    let r = table::decide(*t, n);
    *t = r.table;
    r.answer
}

pub fn lend_decide(mut t: Table, n: Number) -> Answered<Table>
    ensures answer { result.answer ≡ answer_to t (decideCall n.0) }
    ensures table { result.table ≡ table_after t (decideCall n.0) }
{
    let a = decide(&mut t, n);
    Answered {
        table: t,
        answer: a,
    }
}

pub fn forget(t: &mut Table, n: Number) -> Result<Answer, Refusal>
    ensures answer { result ≡ answer_to t.old (forgetCall n.0) }
    ensures table { t.new ≡ table_after t.old (forgetCall n.0) }
{
    let r = table::forget(*t, n);
    *t = r.table;
    r.answer
}

pub fn lend_forget(mut t: Table, n: Number) -> Answered<Table>
    ensures answer { result.answer ≡ answer_to t (forgetCall n.0) }
    ensures table { result.table ≡ table_after t (forgetCall n.0) }
{
    let a = forget(&mut t, n);
    Answered {
        table: t,
        answer: a,
    }
}

pub fn sweep(t: &mut Table) -> Result<Answer, Refusal>
    ensures answer { result ≡ answer_to t.old sweepCall }
    ensures table { t.new ≡ table_after t.old sweepCall }
{
    let r = table::sweep(*t);
    *t = r.table;
    r.answer
}

pub fn lend_sweep(mut t: Table) -> Answered<Table>
    ensures answer { result.answer ≡ answer_to t sweepCall }
    ensures table { result.table ≡ table_after t sweepCall }
{
    let a = sweep(&mut t);
    Answered {
        table: t,
        answer: a,
    }
}
