// The service: messages on standard input, a line for each on standard output. Everything but the reading and the writing of
// bytes is a turn of crate `turns`. RULES, The service.
#![tactic(auto)]

ghost use Rattle.std.specs.Prelude.{◌≡◌, ◌-◌, ◌≤◌, length, take, drop};
ghost use Rattle.endian.specs.Laid.{laid};
ghost use Rattle.service.specs.declared.TheConstants.{BUFFER};

use std::io::{Read, Write};
use table::Table;

// The length of the buffers for input and for output.
const BUFFER: usize = 65536;

// Between two reads: the table, and how many bytes of input wait in front of their buffer.
#[derive(Drop)]
struct State {
    table: Table,
    waiting: usize,
    ghost in_buffer: { waiting ≤ BUFFER },
}

// Moves the bytes from `from` to `to` to the front.
fn move_down(buf: &mut [u8], from: usize, to: usize)
    requires { (from ≤ to) × (to ≤ length buf.old) }
    ensures { buf.new ≡ laid buf.old 0 (take (to - from) (drop from buf.old)) }
{
    buf.copy_within(from..to, 0);
}

// Answers every whole message that waits, a turn and a write at a time. The output's buffer takes the longest line, so a turn
// that used nothing has found no whole message. None is the end of the run: the last line is written, or a write failed.
fn settle<W: Write>(
    s: State,
    last: bool,
    input: &mut [u8; BUFFER],
    output: &mut [u8; BUFFER],
    to: &mut W,
) -> Option<State> {
    let mut table = s.table;
    let mut left = s.waiting;
    loop {
        let turn = turns::take_turn(table, &input[..left], last, output);
        to.write_all(&output[..turn.written]).ok()?;
        move_down(input, turn.used, left);
        left -= turn.used;
        table = turn.table;
        if turn.over {
            return None;
        }
        if turn.used == 0 {
            return if last {
                None
            } else {
                Some(State {
                    table,
                    waiting: left,
                })
            };
        }
    }
}

// Reads once, and answers what is then whole. A read that gives nothing is the end of the input; one that fails ends the run.
fn round<R: Read, W: Write>(
    s: State,
    input: &mut [u8; BUFFER],
    output: &mut [u8; BUFFER],
    from: &mut R,
    to: &mut W,
) -> Option<State> {
    let n = from.read(&mut input[s.waiting..]).ok()?;
    let read = State {
        table: s.table,
        waiting: s.waiting + n,
    };
    settle(read, n == 0, input, output, to)
}

// A proved loop has to end, and nothing says that the input does: it counts its reads up to a number that no run comes to.
fn main(rt: HostRuntime) {
    let mut from = rt.stdin();
    let mut to = rt.stdout();
    let mut input = [0; BUFFER];
    let mut output = [0; BUFFER];
    let mut state = State {
        table: table::closed(),
        waiting: 0,
    };
    for _ in 0..u64::MAX {
        let Some(next) = round(state, &mut input, &mut output, &mut from, &mut to) else {
            return;
        };
        state = next;
    }
}
