// The check and the writer on the rows that a table keeps. RULES, Orders.
ghost use Rattle.std.specs.Prelude.{◌≡◌, ◌≤◌, length};
ghost use Rattle.method.specs.Slots.{kept_flat};
ghost use Rattle.orders.specs.Order.{check_result};
ghost use Rattle.orders.specs.Reply.{check_reply, write_reply};
ghost use Rattle.orders.specs.Write.{write_result};

use refusals::Refusal;
use table::Table;

// Is it an order of the kept rows?
pub(crate) fn check_kept(t: &Table, order: &[u32]) -> Result<bool, Refusal>
    ensures answer { check_reply result ≡ check_result (kept_flat t.now.held) order.now }
{
    let k = table::kept_rows(t);
    let end = 9 * k.count;
    checker::check(&k.rows[..end], order)
}

// Writes an order of them at the front, as `writer::write` does. There are at most 32 by the table's type; said here, for callers.
pub(crate) fn write_kept(t: &Table, out: &mut [u32]) -> Result<usize, Refusal>
    ensures answer { write_reply result ≡ (write_result (kept_flat t.now.held) 0 out.old).0 }
    ensures buffer { out.new ≡ (write_result (kept_flat t.now.held) 0 out.old).1 }
    ensures few { length (kept_flat t.now.held) ≤ 288 }
{
    let kept = table::kept_rows(t);
    let end = 9 * kept.count;
    writer::write(&kept.rows[..end], 0, out)
}
