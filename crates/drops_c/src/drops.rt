// The calls that free many requests: a peer is gone, or deadlines have come. The other ends go into a lent slice,
// oldest first.
ghost use Rattle.std.specs.Prelude.{◌≡◌};
ghost use Rattle.inflight.specs.Tables.{gone_of, run_out_of};
ghost use Rattle.drops_c.specs.DropFields.{peer_of, drop_fields};

use crate::RelayDropped;
use inflight::{Peer, Table};
use refusal::Refusal;

// The answer as numbers.
#[tactic(auto, unfolding(crate::specs::DropFields::drop_fields))]
fn drop_fields(a: Result<usize, Refusal>) -> RelayDropped
    ensures { result ≡ drop_fields a }
{
    match a {
        Ok(count) => RelayDropped { refusal: 0, count },
        Err(refusal) => RelayDropped {
            refusal: u8::from(refusal),
            count: 0,
        },
    }
}

// A side and its number: a publisher, or else a front link.
fn peer_of(publisher: bool, number: u8) -> Peer
    ensures { result ≡ peer_of publisher number }
{
    if publisher {
        return Peer::Publisher(number);
    }
    Peer::Front(number)
}

// A peer is gone: frees all its requests and writes the other end of each, link and front number for a publisher that
// was lost, publisher and publisher number for a front link that closed.
#[unsafe(no_mangle)]
pub extern "C" fn relay_table_gone(
    table: &mut Table,
    publisher: bool,
    number: u8,
    out: &mut [i64],
) -> RelayDropped
    ensures { (result ≡ drop_fields (gone_of table.old (peer_of publisher number) out.old).answer)
        × (table.new ≡ (gone_of table.old (peer_of publisher number) out.old).table)
        × (out.new ≡ (gone_of table.old (peer_of publisher number) out.old).slice) }
{
    let peer = peer_of(publisher, number);
    let a = inflight_gone::gone(table, peer, out);
    drop_fields(a)
}

// Frees all requests whose deadline is at or before the latest time seen, the call's own among them, and writes link
// and front number of each.
#[unsafe(no_mangle)]
pub extern "C" fn relay_table_run_out(table: &mut Table, time: u64, out: &mut [i64]) -> RelayDropped
    ensures { (result ≡ drop_fields (run_out_of table.old time out.old).answer)
        × (table.new ≡ (run_out_of table.old time out.old).table)
        × (out.new ≡ (run_out_of table.old time out.old).slice) }
{
    let a = inflight_run_out::run_out(table, time, out);
    drop_fields(a)
}
