// Receiving, exported for C: `relay_receive` is the library function of that name in `receive_c`, which `link_c` stands
// on too, and has its contract.
#![tactic(auto)]

ghost use Rattle.std.specs.Prelude.{◌≡◌};
ghost use Rattle.link.specs.Receive.{receive_of};
ghost use Rattle.receive_c.specs.ArrivalFields.{arrival_fields};

use link_state::{Link, Moment};
use receive_c::RelayArrival;

// What the link makes of the front of the bytes. The link is lent, and updated where it stands.
#[unsafe(no_mangle)]
pub extern "C" fn relay_receive(link: &mut Link, bytes: &[u8], moment: Moment) -> RelayArrival
    ensures { (result ≡ arrival_fields (receive_of link.old bytes.now moment).answer)
        × (link.new ≡ (receive_of link.old bytes.now moment).link) }
{
    receive_c::relay_receive(link, bytes, moment)
}
