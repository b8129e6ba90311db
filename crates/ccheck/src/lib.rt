// The check of an order for programs in C, which hand both lists over as bytes; include/order_check.h declares it.
// RULES, The C call.
#![tactic(auto)]

ghost use Rattle.std.specs.Prelude.{◌≡◌, false};
ghost use Rattle.orders.specs.Good.{goodb};
ghost use Rattle.orders.specs.Judged.{judged};
ghost use Rattle.orders.specs.CCall.{call_result};
ghost use Rattle.ccheck.specs.Answer.{answer_number, byte_result};

use checker::check;
use endian::get_words;
use good::is_good;
use refusals::Refusal;

fn number_of(a: Result<bool, Refusal>) -> u32
    ensures answer { result ≡ answer_number a }
{
    match a {
        Ok(true) => 1,
        Ok(false) => 0,
        Err(refusal) => u32::from(refusal),
    }
}

// The answer where the order cannot be right, whatever it holds: 13 still comes first.
fn bad_or_no(rows: &[u32]) -> u32
    ensures answer { result ≡ judged 13 1 0 (goodb rows.now) false }
{
    if is_good(rows) { 0 } else { 13 }
}

fn judge(rows: &[u32], order: &[u8]) -> u32
    ensures answer { result ≡ byte_result rows.now order.now }
{
    if order.len() % 4 != 0 {
        return bad_or_no(rows);
    }
    // more numbers than a good table has rows
    if 128 < order.len() {
        return bad_or_no(rows);
    }
    let mut numbers = [0; 32];
    get_words(order, &mut numbers);
    let n = order.len() / 4;
    let answer = check(rows, &numbers[..n]);
    number_of(answer)
}

#[unsafe(no_mangle)]
pub extern "C" fn order_check(rows: &[u8], order: &[u8]) -> u32
    ensures answer { result ≡ call_result rows.now order.now }
{
    if rows.len() % 36 != 0 {
        return 13;
    }
    if 1152 < rows.len() {
        return 13;
    }
    let mut table = [0; 288];
    get_words(rows, &mut table);
    let n = rows.len() / 4;
    judge(&table[..n], order)
}
