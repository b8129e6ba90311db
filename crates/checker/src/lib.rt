// The check of a proposed order of a ticket table. It trusts nobody: the table is looked at first, and then each place of the
// order by itself. RULES, Orders.
#![tactic(auto)]

ghost use Rattle.std.specs.Prelude.{◌≡◌};
ghost use Rattle.orders.specs.Reply.{check_reply};
ghost use Rattle.orders.specs.Order.{check_result};

use good::is_good;
use places::{may_stand, row_of};
use refusals::Refusal;
use words::with;

mod places;

pub fn check(rows: &[u32], order: &[u32]) -> Result<bool, Refusal>
    ensures answer { check_reply result ≡ check_result rows.now order.now }
{
    if !is_good(rows) {
        return Err(Refusal::BadRows);
    }
    // a number left out, or one too many
    if order.len() != rows.len() / 9 {
        return Ok(false);
    }
    let mut placed = 0;
    for n in order {
        let Some(i) = row_of(rows, *n) else {
            return Ok(false);
        };
        if !may_stand(rows, placed, i) {
            return Ok(false);
        }
        placed = with(placed, i);
    }
    Ok(true)
}
