// The sites of a set, lowest first, as an iterator.
ghost use Rattle.std.specs.Prelude.{◌≡◌, ◌≤◌, length};
ghost use Rattle.std.specs.Iterator.{YieldsFirst, item_count};
ghost use Rattle.sites.specs.Sites.{sites_of};
ghost use Rattle.sites.specs.Each.{left_of};

// The sites that are still to come.
#[derive(Drop)]
pub struct SitesLeft(u8);

// All sites of the set.
#[tactic(auto, using(crate::proofs::SitesLaws::used_le))]
pub fn each(x: u8) -> SitesLeft
    ensures all { left_of result ≡ sites_of x }
    ensures few { length (left_of result) ≤ 8 }
{
    SitesLeft(x)
}

impl Iterator for SitesLeft {
    type Item = usize;

    ghost next_gives = { YieldsFirst left_of };

    ghost remaining = { item_count left_of };

    fn next(&mut self) -> Option<usize> {
        let left = self.0;
        if left == 0 {
            return None;
        }
        self.0 = left & (left - 1);
        Some(u8::trailing_zeros(left) as usize)
    }
}
