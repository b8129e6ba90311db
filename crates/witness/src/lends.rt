// The eight calls of crate `lent` that take the table, lend it and hand it back.
ghost use Rattle.method.specs.Calls.Call.{open_with, begin as beginCall, report_ticket, report_prepared, abort as abortCall, decide as decideCall, forget as forgetCall, sweep as sweepCall};
ghost use Rattle.promises.specs.Stated.{CallGives};

use method::{Answered, Number, Ticket};
use table::Table;

fn open_with(t: Table, first: Number, floors: &[u32]) -> Answered<Table>
    ensures gives { CallGives t (open_with first.0 floors.now) result.answer result.table }
{
    lent::lend_open_with(t, first, floors)
}

fn begin(t: Table, sites: u8) -> Answered<Table>
    ensures gives { CallGives t (beginCall sites) result.answer result.table }
{
    lent::lend_begin(t, sites)
}

fn report_ticket(t: Table, n: Number, s: u8, k: Ticket) -> Answered<Table>
    ensures gives { CallGives t (report_ticket n.0 s k.0) result.answer result.table }
{
    lent::lend_report_ticket(t, n, s, k)
}

fn report_prepared(t: Table, n: Number, s: u8) -> Answered<Table>
    ensures gives { CallGives t (report_prepared n.0 s) result.answer result.table }
{
    lent::lend_report_prepared(t, n, s)
}

fn abort(t: Table, n: Number) -> Answered<Table>
    ensures gives { CallGives t (abortCall n.0) result.answer result.table }
{
    lent::lend_abort(t, n)
}

fn decide(t: Table, n: Number) -> Answered<Table>
    ensures gives { CallGives t (decideCall n.0) result.answer result.table }
{
    lent::lend_decide(t, n)
}

fn forget(t: Table, n: Number) -> Answered<Table>
    ensures gives { CallGives t (forgetCall n.0) result.answer result.table }
{
    lent::lend_forget(t, n)
}

fn sweep(t: Table) -> Answered<Table>
    ensures gives { CallGives t sweepCall result.answer result.table }
{
    lent::lend_sweep(t)
}
