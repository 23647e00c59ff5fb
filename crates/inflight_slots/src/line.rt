// The slots of a mask in the order of acceptance: each slot's place in it is known, and the slots are laid out by it.
ghost use Rattle.std.specs.Prelude.{◌≡◌};
ghost use Rattle.inflight.specs.Masks.{slots, laid_out};

use crate::bits::{lowest, rest};

// The slots of a mask, each at its place of a line, oldest accepted first; a place that none of them has stays.
pub fn lay_out(mask: u64, order: &[u8; 64], line: &mut [u8; 64])
    ensures { line.new ≡ laid_out order.now (slots mask) line.old }
{
    let mut m = mask;
    while m != 0 {
        let i = lowest(m);
        m = rest(m);
        let x = order[i];
        line[(x % 64) as usize] = i as u8;
    }
}
