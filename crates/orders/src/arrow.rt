// The arrow between two rows of tickets: which of them a site put first. RULES, Graph and decision.
ghost use Rattle.std.specs.Prelude.{◌≡◌};
ghost use Rattle.orders.specs.Arrow.{arrowb};

// Is there a site at which both hold a ticket, and a holds the smaller one? All eight are looked at, so that the loop has no branch
// and the compiler takes them all at once.
pub fn goes_before(a: &[u32; 8], b: &[u32; 8]) -> bool
    ensures answer { result ≡ arrowb a.now b.now }
{
    let mut found = false;
    for s in 0..8 {
        found |= (0 < a[s]) & (a[s] < b[s]);
    }
    found
}
