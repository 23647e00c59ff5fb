// The NetPIDs of a Handshake.
ghost use Rattle.std.specs.Prelude.{◌≡◌};
ghost use Rattle.handshake_in.specs.Pids.{pids_of};

use handshake_in::{NetPids, net_pids};

// The NetPIDs that a Handshake with this body names.
#[unsafe(no_mangle)]
pub extern "C" fn relay_read_netpids(body: &[u8]) -> NetPids
    ensures { result ≡ pids_of body.now }
{
    net_pids(body)
}
