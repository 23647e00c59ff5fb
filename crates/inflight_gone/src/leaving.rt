// Gone: the refusals in their order, and the slots of a peer's requests.
ghost use Rattle.std.specs.Prelude.{◌≡◌, false};
ghost use Rattle.inflight.specs.Model.{no_peer};
ghost use Rattle.inflight.specs.Tables.{ends_at, slots_of, other_at, gone_of};

use inflight::{Peer, Table};
use inflight_drop::drop_slots;
use inflight_slots::find_link;
use refusal::Refusal;

// Whether a peer's number is out of its side's range.
fn no_peer(peer: Peer) -> bool
    ensures { result ≡ no_peer peer }
{
    match peer {
        Peer::Front(link) => 32 <= link,
        Peer::Publisher(publisher) => 8 <= publisher,
    }
}

// The slots of a peer's requests.
fn peer_slots(masks: &[u64; 9], places: &[u8; 128], peer: Peer) -> u64
    requires { no_peer peer ≡ false }
    ensures { result ≡ slots_of masks.now places.now peer }
{
    match peer {
        Peer::Front(link) => find_link(masks[0], places, link),
        Peer::Publisher(publisher) => masks[1 + publisher as usize],
    }
}

// Whether the other ends of a peer's requests are at publishers.
fn to_publishers(peer: Peer) -> bool
    ensures { ends_at result ≡ other_at peer }
{
    match peer {
        Peer::Front(_) => true,
        Peer::Publisher(_) => false,
    }
}

// A peer is gone, a front link that closed or a publisher that was lost: frees all its requests and writes the other
// end of each, publisher and publisher number for a link, link and front number for a publisher.
pub fn gone(table: &mut Table, peer: Peer, out: &mut [i64]) -> Result<usize, Refusal>
    ensures { (result ≡ (gone_of table.old peer out.old).answer)
        × (table.new ≡ (gone_of table.old peer out.old).table)
        × (out.new ≡ (gone_of table.old peer out.old).slice) }
{
    if no_peer(peer) {
        return Err(Refusal::OutOfRange);
    }
    let mask = peer_slots(&table.masks, &table.places, peer);
    drop_slots(table, mask, to_publishers(peer), out)
}
