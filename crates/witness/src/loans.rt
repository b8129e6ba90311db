// The eight calls of crate `lent` on a table that is lent to them.
ghost use Rattle.method.specs.Calls.Call.{open_with, begin as beginCall, report_ticket, report_prepared, abort as abortCall, decide as decideCall, forget as forgetCall, sweep as sweepCall};
ghost use Rattle.promises.specs.Stated.{CallGives};

use method::{Answer, Number, Ticket};
use refusals::Refusal;
use table::Table;

fn open_with(t: &mut Table, first: Number, floors: &[u32]) -> Result<Answer, Refusal>
    ensures gives { CallGives t.old (open_with first.0 floors.now) result t.new }
{
    lent::open_with(t, first, floors)
}

fn begin(t: &mut Table, sites: u8) -> Result<Answer, Refusal>
    ensures gives { CallGives t.old (beginCall sites) result t.new }
{
    lent::begin(t, sites)
}

fn report_ticket(t: &mut Table, n: Number, s: u8, k: Ticket) -> Result<Answer, Refusal>
    ensures gives { CallGives t.old (report_ticket n.0 s k.0) result t.new }
{
    lent::report_ticket(t, n, s, k)
}

fn report_prepared(t: &mut Table, n: Number, s: u8) -> Result<Answer, Refusal>
    ensures gives { CallGives t.old (report_prepared n.0 s) result t.new }
{
    lent::report_prepared(t, n, s)
}

fn abort(t: &mut Table, n: Number) -> Result<Answer, Refusal>
    ensures gives { CallGives t.old (abortCall n.0) result t.new }
{
    lent::abort(t, n)
}

fn decide(t: &mut Table, n: Number) -> Result<Answer, Refusal>
    ensures gives { CallGives t.old (decideCall n.0) result t.new }
{
    lent::decide(t, n)
}

fn forget(t: &mut Table, n: Number) -> Result<Answer, Refusal>
    ensures gives { CallGives t.old (forgetCall n.0) result t.new }
{
    lent::forget(t, n)
}

fn sweep(t: &mut Table) -> Result<Answer, Refusal>
    ensures gives { CallGives t.old sweepCall result t.new }
{
    lent::sweep(t)
}
