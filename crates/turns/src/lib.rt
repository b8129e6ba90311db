// One turn of the service: the whole messages at hand are answered into a lent buffer, one line each. RULES, The service.
#![tactic(auto)]

ghost use Rattle.std.specs.Prelude.{◌≡◌, true, ◌+◌, ◌≤◌, length};
ghost use Rattle.endian.specs.Laid.{laid};
ghost use Rattle.frames.specs.Stream.{stream_of};
ghost use Rattle.table.specs.Shut.{shut_table};
ghost use Rattle.turns.specs.Turn.{turn, eleven};
ghost use Rattle.turns.specs.Struct.{turn_of};

use lines::Words;
use refusals::Refusal;
use table::Table;

// The table after the turn, how many bytes of input were used and of output written, and whether reading is over: the last line
// was an 11.
#[derive(Drop)]
pub struct Turn {
    pub table: Table,
    pub used: usize,
    pub written: usize,
    pub over: bool,
}

// The last line of all: 11.
fn last_line(table: Table, used: usize, out: &mut [u8], written: usize) -> Turn
    requires { written + 358 ≤ length out.old }
    ensures answer { result ≡ turn_of table used (written + length eleven) true }
    ensures buffer { out.new ≡ laid out.old written eleven }
{
    let n = lines::write_line(Words::from(Refusal::BadFrame), out, written).unwrap();
    Turn {
        table,
        used,
        written: written + n,
        over: true,
    }
}

// Answers the whole messages of `input` from the front, for as long as the longest line still fits into `out`. A message that is
// not answered is not touched. `last` says that no more input comes: then a message that is cut off is an 11. The last clause
// follows from the others; it is said for callers.
pub fn take_turn(t: Table, input: &[u8], last: bool, out: &mut [u8]) -> Turn
    ensures table { result.table ≡ shut_table (turn last t.held (length out.old) (stream_of input.now)).table }
    ensures used { result.used ≡ (turn last t.held (length out.old) (stream_of input.now)).used }
    ensures written { result.written ≡ length (turn last t.held (length out.old) (stream_of input.now)).written }
    ensures over { result.over ≡ (turn last t.held (length out.old) (stream_of input.now)).over }
    ensures buffer { out.new ≡ laid out.old 0 (turn last t.held (length out.old) (stream_of input.now)).written }
    ensures within { (result.used ≤ length input.now) × (result.written ≤ length out.old) }
{
    let mut table = t;
    let mut used: usize = 0;
    let mut written: usize = 0;
    while 358 <= out.len() - written {
        let rest = &input[used..];
        match frames::read_frame(rest) {
            Ok(Some(end)) => {
                let s = desk::serve(table, &rest[3..end], out, written);
                table = s.table;
                written += s.count.unwrap();
                used += end;
            }
            Ok(None) => {
                if last & (rest.len() != 0) {
                    return last_line(table, used, out, written);
                }
                return Turn {
                    table: table,
                    used: used,
                    written: written,
                    over: false,
                };
            }
            Err(_) => {
                return last_line(table, used, out, written);
            }
        }
    }
    Turn {
        table: table,
        used: used,
        written: written,
        over: false,
    }
}
