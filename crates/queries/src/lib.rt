// The two requests that ask about the kept rows and leave the table: a proposal and an order. What is said is a value here; the desk
// writes it as text. RULES, Orders; The service.
#![tactic(auto)]

ghost use Rattle.std.specs.Prelude.{◌≡◌, cond};
ghost use Rattle.lines.specs.Line.{Line.say, refused_line};
ghost use Rattle.method.specs.Conditions.{is_closed};
ghost use Rattle.method.specs.Slots.{kept_flat};
ghost use Rattle.queries.specs.Queries.{proposal_line, order_line, if_open};
ghost use Rattle.queries.specs.Said.{spoken_of, check_words, write_said};

use asking::{check_kept, write_kept};
use lines::Words;
use refusals::Refusal;
use table::Table;

mod asking;

// Words, or an order of so many numbers.
#[derive(Drop)]
pub enum Said {
    Words(Words),
    Order(usize),
}

// What is said, and the numbers of an order; zeros behind them.
#[derive(Drop)]
pub struct Spoken {
    pub said: Said,
    pub numbers: [u32; 32],
}

// Words, and no order.
fn speak(words: Words) -> Spoken
    ensures answer { result ≡ spoken_of (say words) }
{
    Spoken {
        said: Said::Words(words),
        numbers: [0; 32],
    }
}

// Before a good opening there is one answer, whatever else was to be said.
fn if_open(t: &Table, s: Spoken) -> Spoken
    ensures answer { result ≡ cond (is_closed t.now.held) (spoken_of (refused_line Refusal.NotOpen)) s }
{
    if table::is_closed(t) {
        return speak(Words::from(Refusal::NotOpen));
    }
    s
}

// What the check answered.
fn judged(a: Result<bool, Refusal>) -> Words
    ensures answer { result ≡ check_words a }
{
    match a {
        Ok(true) => Words::Good,
        Ok(false) => Words::Bad,
        Err(r) => Words::from(r),
    }
}

// Is it an order of the kept rows?
pub fn judge(t: &Table, numbers: &[u32]) -> Spoken
    ensures answer { result ≡ spoken_of (if_open t.now.held (proposal_line (kept_flat t.now.held) numbers.now)) }
{
    let words = judged(check_kept(&t, numbers));
    if_open(t, speak(words))
}

// What the writer answered. 14 never: no more rows are kept than there are entries.
fn written(a: Result<usize, Refusal>) -> Said
    ensures answer { result ≡ write_said a }
{
    match a {
        Ok(n) => Said::Order(n),
        Err(r) => Said::Words(Words::from(r)),
    }
}

// An order of the kept rows.
pub fn give(t: &Table) -> Spoken
    ensures answer { result ≡ spoken_of (if_open t.now.held (order_line (kept_flat t.now.held))) }
{
    let mut numbers: [u32; 32] = [0; 32];
    let said = written(write_kept(t, &mut numbers));
    if_open(t, Spoken { said, numbers })
}
