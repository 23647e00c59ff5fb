// Reading a body by side and type.
ghost use Rattle.std.specs.Prelude.{◌≡◌};
ghost use Rattle.message.specs.ReadMessage.{read_cancel, read_fin, to_server, to_client, read_message};

use crate::Message;
use crate::types::{CANCEL, CLIENT_FIN, INVOKE, OLD_ERROR, RESULT, SERVER_FIN};
use header::Side;
use invoke_in::read_invoke;
use refusal::Refusal;
use result::{read_old_error, read_result};
use wire::{signed64, u64_at};

// A query number and nothing else.
#[tactic(auto, unfolding(crate::specs::ReadMessage::read_cancel))]
fn read_cancel(s: &[u8]) -> Result<Message, Refusal>
    ensures { result ≡ read_cancel s.now }
{
    if s.len() < 8 {
        return Err(Refusal::BodySize);
    }
    let raw = u64_at(s, 0);
    if raw == 0 {
        return Err(Refusal::NumberZero);
    }
    if 8 < s.len() {
        return Err(Refusal::BodySize);
    }
    Ok(Message::Cancel(signed64(raw)))
}

// A fin, whose body is empty.
fn read_fin(s: &[u8], fin: Message) -> Result<Message, Refusal>
    ensures { result ≡ read_fin s.now fin }
{
    if s.is_empty() {
        Ok(fin)
    } else {
        Err(Refusal::BodySize)
    }
}

#[tactic(auto, unfolding(crate::specs::ReadMessage::to_server))]
fn to_server(tag: u32, s: &[u8]) -> Result<Message, Refusal>
    ensures { result ≡ to_server tag s.now }
{
    match tag {
        INVOKE => read_invoke(s).map(Message::Invoke),
        CANCEL => read_cancel(s),
        CLIENT_FIN => read_fin(s, Message::ClientFin),
        _ => Err(Refusal::TypeNotRpc),
    }
}

#[tactic(auto, unfolding(crate::specs::ReadMessage::to_client))]
fn to_client(tag: u32, s: &[u8]) -> Result<Message, Refusal>
    ensures { result ≡ to_client tag s.now }
{
    match tag {
        RESULT => read_result(s).map(Message::Result),
        OLD_ERROR => read_old_error(s).map(Message::Result),
        SERVER_FIN => read_fin(s, Message::ServerFin),
        _ => Err(Refusal::TypeNotRpc),
    }
}

// The message whose packet has the type tag and the body s, at the side that reads it.
#[tactic(auto, unfolding(crate::specs::ReadMessage::read_message))]
pub fn read_message(side: Side, tag: u32, s: &[u8]) -> Result<Message, Refusal>
    ensures { result ≡ read_message side tag s.now }
{
    match side {
        Side::Server => to_server(tag, s),
        Side::Client => to_client(tag, s),
    }
}
