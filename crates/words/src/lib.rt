// A set of numbers below 32, in a word: bit i says whether i is in it. The laws between the operations on words and the sets they
// mean are in proofs/WordLaws.antt.
#![tactic(auto)]

ghost use Rattle.std.specs.Prelude.{◌≡◌, ◌%◌};
ghost use Rattle.words.specs.Word.{has as has_of, with as withOf};

// Is i in the set? Any i may be asked about; without the remainder a shift by 32 or more would have no meaning.
pub fn has(w: u32, i: usize) -> bool
    ensures answer { result ≡ has_of w (i % 32) }
{
    (w >> (i % 32)) % 2 == 1
}

// The set with i.
pub fn with(w: u32, i: usize) -> u32
    ensures answer { result ≡ withOf w (i % 32) }
{
    w | (1 << (i % 32))
}
