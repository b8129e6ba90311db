// A line where there is room for the longest: it is written in full.
ghost use Rattle.std.specs.Prelude.{◌≡◌, ◌+◌, ◌≤◌, length};
ghost use Rattle.endian.specs.Laid.{laid};
ghost use Rattle.lines.specs.Line.{line_bytes};
ghost use Rattle.queries.specs.Said.{said_line};

use queries::Said;

pub(crate) fn say(said: Said, numbers: &[u32], out: &mut [u8], place: usize) -> usize
    requires { (length numbers.now ≤ 32) × (place + 358 ≤ length out.old) }
    ensures answer { result ≡ length (line_bytes (said_line said numbers.now)) }
    ensures buffer { out.new ≡ laid out.old place (line_bytes (said_line said numbers.now)) }
{
    let n = match said {
        Said::Words(w) => lines::write_line(w, out, place),
        Said::Order(n) => lines::write_order(&numbers[..n.min(numbers.len())], out, place),
    };
    n.unwrap()
}
