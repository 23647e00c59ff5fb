// Bytes moved into the events' buffer and within it.
ghost use Rattle.std.specs.Prelude.{◌≡◌, ◌-◌, ◌≤◌, length};
ghost use Rattle.std.proofs.lemmas.List.Edits.{sets};
ghost use Rattle.wire.specs.Bytes.{part};
ghost use Rattle.walk_steps.specs.Step.{Filled, FilledUnless};

use std::io::Read;

// Reads once behind the first `have` bytes, and hands back how many there are then. A read that fails brings nothing.
fn read_more(input: &mut impl Read, buf: &mut [u8], have: usize) -> usize
    requires { have ≤ length buf.old }
    ensures { Filled have buf.old result buf.new }
{
    have + input.read(&mut buf[have..]).unwrap_or(0)
}

// The same, but that nothing is read once the events have ended.
pub(crate) fn fill(input: &mut impl Read, buf: &mut [u8], have: usize, ended: bool) -> usize
    requires { have ≤ length buf.old }
    ensures { FilledUnless ended have buf.old result buf.new }
{
    if ended {
        return have;
    }
    read_more(input, buf, have)
}

// Moves the bytes from `from` to `end` to the front.
pub(crate) fn move_front(buf: &mut [u8], from: usize, end: usize)
    requires { (from ≤ end) × (end ≤ length buf.old) }
    ensures { buf.new ≡ sets buf.old 0 (part buf.old from (end - from)) }
{
    buf.copy_within(from..end, 0);
}
