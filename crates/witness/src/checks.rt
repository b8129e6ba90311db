// The check, the writer and the check on bytes.
ghost use Rattle.promises.specs.Stated.{CheckGives, CCheckGives, WriteGives};

use refusals::Refusal;

fn check(rows: &[u32], order: &[u32]) -> Result<bool, Refusal>
    ensures gives { CheckGives rows.now order.now result }
{
    checker::check(rows, order)
}

fn order_check(rows: &[u8], order: &[u8]) -> u32
    ensures gives { CCheckGives rows.now order.now result }
{
    ccheck::order_check(rows, order)
}

fn write(rows: &[u32], place: usize, out: &mut [u32]) -> Result<usize, Refusal>
    ensures gives { WriteGives rows.now place out.old result out.new }
{
    writer::write(rows, place, out)
}
