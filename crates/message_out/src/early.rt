// What is refused before the body is looked at: 20, 22, 5 and 19.
ghost use Rattle.std.specs.Prelude.{◌≡◌};
ghost use Rattle.message_out.specs.Outgoing.{kind_of, wrong_way};
ghost use Rattle.message_out.specs.Parts.{check_early};

use crate::Outgoing;
use link_state::Link;
use message::{CANCEL, CLIENT_FIN, INVOKE, RESULT, SERVER_FIN};
use refusal::Refusal;
use send_rules::check_send;

// The type of its packet.
#[tactic(auto, unfolding(crate::specs::Outgoing::kind_of))]
pub(crate) fn kind_of(what: Outgoing) -> u32
    ensures { result ≡ kind_of what }
{
    match what {
        Outgoing::Invoke { .. } => INVOKE,
        Outgoing::Cancel(_) => CANCEL,
        Outgoing::ClientFin => CLIENT_FIN,
        Outgoing::Payload(_) | Outgoing::Error { .. } => RESULT,
        Outgoing::ServerFin => SERVER_FIN,
        Outgoing::Unknown(kind) => kind,
    }
}

// Whether the server, or the client, never sends it.
#[tactic(auto, unfolding(crate::specs::Outgoing::wrong_way))]
fn wrong_way(server: bool, what: Outgoing) -> bool
    ensures { result ≡ wrong_way server what }
{
    match what {
        Outgoing::Invoke { .. } | Outgoing::Cancel(_) | Outgoing::ClientFin => server,
        Outgoing::Payload(_) | Outgoing::Error { .. } | Outgoing::ServerFin => !server,
        Outgoing::Unknown(_) => true,
    }
}

#[tactic(auto, unfolding(crate::specs::Parts::check_early))]
pub(crate) fn check_early(link: Link, what: Outgoing) -> Result<(), Refusal>
    ensures { result ≡ check_early link what }
{
    check_send(link, kind_of(what), false)?;
    if wrong_way(link.set.server, what) {
        return Err(Refusal::TypeNotRpc);
    }
    Ok(())
}
