// The trials: labelled streams on standard input, each on a table of its own, and their lines on standard output. The file
// `stdin` is made by tests/trials/make from tests/trials/cases, which says of each stream what its lines must be.
//
// A record has a kind, a length of two bytes and as many bytes more: kind 0 is a label, which is written as it is and makes
// the table a closed one; any other kind is a stream, whole. A write that fails is passed over.
#![tactic(auto)]

ghost use Rattle.std.specs.Prelude.{◌≤◌, length};

use std::io::{Read, Write};
use table::Table;

// A stream on the table; what it left.
fn run<W: Write>(t: Table, stream: &[u8], out: &mut [u8], to: &mut W) -> Table {
    let turn = turns::take_turn(t, stream, true, out);
    let _ = to.write_all(&out[..turn.written]);
    turn.table
}

fn label<W: Write>(text: &[u8], to: &mut W) -> Table {
    let _ = to.write_all(text);
    table::closed()
}

// Plays the records up to the first that is cut off.
fn records<W: Write>(input: &[u8], out: &mut [u8], to: &mut W) {
    let mut table = table::closed();
    let mut rest = input;
    while let [kind, a, b, tail @ ..] = rest {
        let n = u16::from_be_bytes([*a, *b]);
        let Some((bytes, after)) = tail.split_at_checked(usize::from(n)) else {
            return;
        };
        table = match kind {
            0 => label(bytes, to),
            _ => run(table, bytes, out, to),
        };
        rest = after;
    }
}

// Reads until the buffer is full, the input ends or a read fails, and says how many bytes then stand in front.
fn read_full<R: Read>(from: &mut R, buf: &mut [u8]) -> usize
    ensures { result ≤ length buf.old }
{
    let mut done: usize = 0;
    while done < buf.len() {
        match from.read(&mut buf[done..]) {
            Ok(0) => return done,
            Ok(n) => done += n,
            Err(_) => return done,
        }
    }
    done
}

fn main(rt: HostRuntime) {
    let mut from = rt.stdin();
    let mut to = rt.stdout();
    let mut input = [0u8; 65536];
    let mut out = [0u8; 65536];
    let n = read_full(&mut from, &mut input);
    records(&input[..n], &mut out, &mut to);
}
