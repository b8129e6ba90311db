// The kinds of messages, and how long a body of each is. The same table stands in specs/Kinds.antt, which says what its columns mean.
#![tactic(auto)]

ghost use Rattle.std.specs.Prelude.{◌≡◌, ◌<◌};
ghost use Rattle.kinds.specs.Kinds.{code_of, Decodes, shape, row_of, entries_in, entries_of};

use refusals::Refusal;

// What the first byte of a body says.
#[derive(Clone, Copy, Debug, PartialEq, Eq)]
pub enum Kind {
    Open,
    Begin,
    Ticket,
    Prepared,
    Abort,
    Decide,
    Forget,
    Sweep,
    Propose,
    Order,
}

impl TryFrom<u8> for Kind {
    type Error = Refusal;

    ghost try_from_gives = { Decodes };

    fn try_from(code: u8) -> Result<Kind, Refusal> {
        match code {
            0 => Ok(Kind::Open),
            1 => Ok(Kind::Begin),
            2 => Ok(Kind::Ticket),
            3 => Ok(Kind::Prepared),
            4 => Ok(Kind::Abort),
            5 => Ok(Kind::Decide),
            6 => Ok(Kind::Forget),
            7 => Ok(Kind::Sweep),
            8 => Ok(Kind::Propose),
            9 => Ok(Kind::Order),
            _ => Err(Refusal::BadBody),
        }
    }
}

// The bytes without the list, the bytes of each entry of the list (1 where there is none), the fewest entries, the most.
#[derive(Clone, Copy)]
struct Shape {
    base: usize,
    step: usize,
    least: usize,
    most: usize,
}

impl Shape {
    fn new(base: usize, step: usize, least: usize, most: usize) -> Shape
        ensures { result ≡ shape base step least most }
    {
        Shape {
            base,
            step,
            least,
            most,
        }
    }

    // The entries of a body of this shape that is `len` bytes long; none where no such body is.
    fn entries(self, len: usize) -> Option<usize>
        requires { 0 < self.step }
        ensures { result ≡ entries_in self len }
    {
        let over = len.checked_sub(self.base)?;
        if over % self.step != 0 {
            return None;
        }
        let n = over / self.step;
        if n < self.least || self.most < n {
            return None;
        }
        Some(n)
    }
}

impl Kind {
    // The table of kinds, a line for each. It is a match and not a constant array, which the compiler would lay down anew at each look.
    fn shape(self) -> Shape
        ensures { result ≡ row_of (code_of self) }
    {
        match self {
            Kind::Open => Shape::new(5, 4, 0, 38), // first number, floors
            Kind::Begin => Shape::new(2, 1, 0, 0), // site list
            Kind::Ticket => Shape::new(10, 1, 0, 0), // number, site, ticket
            Kind::Prepared => Shape::new(6, 1, 0, 0), // number, site
            Kind::Abort => Shape::new(5, 1, 0, 0), // number
            Kind::Decide => Shape::new(5, 1, 0, 0), // number
            Kind::Forget => Shape::new(5, 1, 0, 0), // number
            Kind::Sweep => Shape::new(1, 1, 0, 0),
            Kind::Propose => Shape::new(1, 4, 0, 39), // numbers
            Kind::Order => Shape::new(1, 1, 0, 0),
        }
    }

    // How many entries the list of a body of this kind has that is `len` bytes long; none where no such body is.
    #[tactic(auto, using(crate::proofs::KnownLaws::known), unfolding(crate::specs::Kinds::entries_of))]
    pub fn entries(self, len: usize) -> Option<usize>
        ensures { result ≡ entries_of (code_of self) len }
    {
        self.shape().entries(len)
    }
}

// The same of the kind that a byte says.
#[tactic(auto, unfolding(crate::specs::Kinds::entries_of))]
pub fn entries(kind: u8, len: usize) -> Option<usize>
    ensures { result ≡ entries_of kind len }
{
    Kind::try_from(kind).ok()?.entries(len)
}
