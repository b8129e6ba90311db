// The square of arrows: entry i, j is yes where slot i has an arrow to slot j.
ghost use Rattle.std.specs.Prelude.{◌≡◌, ◌<◌, map};
ghost use Rattle.orders.specs.Arrow.{arrowb};
ghost use Rattle.paths.specs.Paths.{ticket_row};

use orders::goes_before;
use std::array;

// The arrows from these tickets to the slots. Without a ticket there are none.
fn row_of(own: &[u32; 8], tickets: &[[u32; 8]; 32]) -> [bool; 32]
    ensures answer { result ≡ map (arrowb own.now) tickets.now }
{
    if *own == [0; 8] {
        return [false; 32];
    }
    array::from_fn(|j| goes_before(own, &tickets[j]))
}

pub(crate) fn square_of(tickets: &[[u32; 8]; 32]) -> [[bool; 32]; 32]
    ensures answer { result ≡ map (λ a. map (arrowb a) tickets.now) tickets.now }
{
    array::from_fn(
        |i|
            requires { i < 32 }
            ensures { result ≡ map (arrowb (ticket_row tickets.entry.now i)) tickets.entry.now }
        { row_of(&tickets[i], tickets) },
    )
}
