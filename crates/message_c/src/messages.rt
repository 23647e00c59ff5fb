// Reading a message.
ghost use Rattle.std.specs.Prelude.{◌≡◌};
ghost use Rattle.message.specs.ReadMessage.{read_message};
ghost use Rattle.message_c.specs.MessageFields.{side_of, plain_fields, invoke_fields, answer_fields, fields_of};

use crate::RelayMessage;
use header::Side;
use invoke::Invoke;
use message::{Message, read_message};
use refusal::Refusal;
use result::Answer;

fn side_of(server: bool) -> Side
    ensures { result ≡ side_of server }
{
    if server { Side::Server } else { Side::Client }
}

fn invoke_fields(i: Invoke) -> RelayMessage
    ensures { result ≡ invoke_fields i }
{
    RelayMessage {
        kind: 1,
        refusal: 0,
        hasactor: i.actor.is_some(),
        hastimeout: i.timeout.is_some(),
        tl2: i.tl2,
        number: i.number,
        actor: i.actor.unwrap_or(0),
        timeout: i.timeout.unwrap_or(0),
        code: 0,
        at: i.at,
        len: i.len,
    }
}

// The fields of a message that is no invoke.
// Kept: six numbers, by their places: `RelayMessage { number, ..plain(kind) }` was tried, and copies the bytes between
// the fields too: a fin took 8.10 ns to read and not 7.45.
fn plain_fields(
    kind: u8,
    refusal: u8,
    number: i64,
    code: i32,
    at: usize,
    len: usize,
) -> RelayMessage
    ensures { result ≡ plain_fields kind refusal number code at len }
{
    RelayMessage {
        kind,
        refusal,
        hasactor: false,
        hastimeout: false,
        tl2: false,
        number,
        actor: 0,
        timeout: 0,
        code,
        at,
        len,
    }
}

fn answer_fields(number: i64, answer: Answer) -> RelayMessage
    ensures { result ≡ answer_fields number answer }
{
    match answer {
        Answer::Payload { at, len } => plain_fields(4, 0, number, 0, at, len),
        Answer::Error { code, at, len } => plain_fields(5, 0, number, code, at, len),
    }
}

#[tactic(auto, unfolding(crate::specs::MessageFields::fields_of))]
fn fields_of(read: Result<Message, Refusal>) -> RelayMessage
    ensures { result ≡ fields_of read }
{
    match read {
        Err(refusal) => plain_fields(0, u8::from(refusal), 0, 0, 0, 0),
        Ok(Message::Invoke(i)) => invoke_fields(i),
        Ok(Message::Cancel(number)) => plain_fields(2, 0, number, 0, 0, 0),
        Ok(Message::ClientFin) => plain_fields(3, 0, 0, 0, 0, 0),
        Ok(Message::Result(r)) => answer_fields(r.number, r.answer),
        Ok(Message::ServerFin) => plain_fields(6, 0, 0, 0, 0, 0),
    }
}

// The message whose packet has the type tag and this body, at the side that reads it: a server's if server, else a
// client's.
#[unsafe(no_mangle)]
pub extern "C" fn relay_read_message(server: bool, tag: u32, body: &[u8]) -> RelayMessage
    ensures { result ≡ fields_of (read_message (side_of server) tag body.now) }
{
    fields_of(read_message(side_of(server), tag, body))
}
