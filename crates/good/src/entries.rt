// The entries of a row.
ghost use Rattle.std.specs.Prelude.{◌≡◌};
ghost use Rattle.orders.specs.Entries.{entry_at};
ghost use Rattle.good.specs.Row.{tickets_in};

// The number of row i; past the list it is 0.
pub fn number_at(rows: &[u32], i: usize) -> u32
    ensures answer { result ≡ (entry_at rows.now i).number }
{
    // past the list the place of a number might wrap
    if rows.len() / 9 < i {
        return 0;
    }
    rows.get(9 * i).map_or(0, |number| *number)
}

// The tickets of row i; past the whole rows zeros.
pub fn tickets_at(rows: &[u32], i: usize) -> [u32; 8]
    ensures answer { result ≡ tickets_in rows.now i }
{
    if i < rows.len() / 9 {
        let k = 9 * i + 1;
        return <[u32; 8]>::try_from(&rows[k..k + 8]).unwrap();
    }
    [0; 8]
}
