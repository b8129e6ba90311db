// The C call, as a static library that exports crate `ccheck`'s function under its own name; include/order_check.h declares it.
#![tactic(auto)]

ghost use Rattle.std.specs.Prelude.{◌≡◌};
ghost use Rattle.orders.specs.CCall.{call_result};

#[unsafe(no_mangle)]
pub extern "C" fn order_check(rows: &[u8], order: &[u8]) -> u32
    ensures answer { result ≡ call_result rows.now order.now }
{
    ccheck::order_check(rows, order)
}
