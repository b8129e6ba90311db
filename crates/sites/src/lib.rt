// The set of sites of a transaction, eight bits in a byte, bit i for site i (RULES, The table): which sites it has,
// and how many. The definitions are in specs/Sites.antt.
//
// A loop that visits the sites, lowest first, is `for s in sites::each(x)`. That each of them is below 8 is `first_lt` of
// proofs/SitesLaws.antt, and that there are eight at most is `used_le` there.
#![tactic(auto)]

ghost use Rattle.std.specs.Prelude.{◌≡◌};
ghost use Rattle.sites.specs.Sites.{listed, sites_used, outsideb};

#[cfg(test)]
mod tests;
mod walk;

pub use walk::{SitesLeft, each};

// Is site i in the set? Any i may be asked about: a message can name one up to 255.
pub fn has_site(x: u8, i: u8) -> bool
    ensures answer { result ≡ listed x i }
{
    if i < 8 { (x >> i) % 2 == 1 } else { false }
}

// How many sites a transaction uses.
pub fn used(x: u8) -> u32
    ensures answer { result ≡ sites_used x }
{
    u8::count_ones(x)
}

// Does the set have a site that a table of n sites lacks?
pub fn goes_outside(x: u8, n: u8) -> bool
    ensures answer { result ≡ outsideb x n }
{
    if n < 8 { (x >> n) != 0 } else { false }
}
