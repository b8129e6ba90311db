// Why a message or a call is refused: RULES, Refusals. One enum for all that says no, so that a refusal goes up by `?` from where it is
// found to the line that tells it, and only there becomes its number.
#![tactic(auto)]

ghost use Rattle.std.specs.Prelude.{◌≡◌};
ghost use Rattle.refusals.specs.Numbers.{number_of};

#[derive(Clone, Copy, Debug, PartialEq, Eq)]
pub enum Refusal {
    // 1: before a good opening, or an opening that is not good
    NotOpen,
    // 2: no transaction of this number is in the table
    Unknown,
    // 3: a site list or a site that does not belong here
    BadSite,
    // 4: the call is out of turn
    OutOfTurn,
    // 5: the ticket is not above the base
    NotAbove,
    // 6: another transaction holds the ticket
    Taken,
    // 7: no slot is free
    Full,
    // 8: no number is left
    UsedUp,
    // 9: it is too early to forget
    TooEarly,
    // 10: a body of no kind, or of a length that its kind does not have
    BadBody,
    // 11: the bytes are no message, and reading ends
    BadFrame,
    // 12: the rows have no order
    NoOrder,
    // 13: the ticket table is bad
    BadRows,
    // 14: it does not fit where it is to be written
    NoRoom,
}

impl From<Refusal> for u32 {
    ghost from_gives = { λ r n. n ≡ number_of r };

    fn from(r: Refusal) -> u32 {
        match r {
            Refusal::NotOpen => 1,
            Refusal::Unknown => 2,
            Refusal::BadSite => 3,
            Refusal::OutOfTurn => 4,
            Refusal::NotAbove => 5,
            Refusal::Taken => 6,
            Refusal::Full => 7,
            Refusal::UsedUp => 8,
            Refusal::TooEarly => 9,
            Refusal::BadBody => 10,
            Refusal::BadFrame => 11,
            Refusal::NoOrder => 12,
            Refusal::BadRows => 13,
            Refusal::NoRoom => 14,
        }
    }
}
