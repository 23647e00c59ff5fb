// The refusals of documents 01 and 02, by name and number, in their order: the one place that names and numbers them.
//
// A call that can refuse answers a `Result` whose error is a `Refusal`. Its number is `u8::from` it: C is told numbers,
// and the documents write them. specs/Numbers.antt is the table that definitions are held against.
#![tactic(auto)]

ghost use Rattle.std.specs.Prelude.{◌≡◌};
ghost use Rattle.refusal.specs.Numbers.{number};

use std::error::Error;
use std::fmt;

#[derive(Clone, Copy, Debug, PartialEq, Eq)]
pub enum Refusal {
    // Packets.
    LengthUnder16 = 1,
    LengthOverLimit = 2,
    LengthInOpening = 3,
    PacketNumber = 4,
    TypeNotAllowed = 5,
    Checksum = 6,
    // The opening.
    OpeningShort = 7,
    Clocks = 8,
    Encryption = 9,
    BeyondOffer = 10,
    // Messages.
    MessageCut = 11,
    NumberZero = 12,
    HeaderRepeated = 13,
    HeaderNotCarried = 14,
    PayloadReadsAsHeader = 15,
    BufferTooSmall = 16,
    BodySize = 17,
    TextForm = 18,
    TypeNotRpc = 19,
    // The link.
    LinkClosed = 20,
    PingOutOfTurn = 21,
    NotOurTurn = 22,
    VersionTooOld = 24,
    PaddingNotZero = 25,
    FourthWord = 26,
    // The table of requests in flight; 30 also of a link that is set up.
    OutOfRange = 30,
    InFlightAlready = 31,
    LoadAtLimit = 32,
    CapacityGone = 33,
    NoSuchRequest = 34,
    // The event stream.
    EventUnknownOrCut = 35,
    // Keys of links.
    UnsuitableKey = 36,
    // The cipher.
    NotWholeBlocks = 37,
}

impl From<Refusal> for u8 {
    ghost from_gives = { λ refusal code. code ≡ number refusal };

    #[tactic(auto, unfolding(crate::specs::Numbers::number))]
    fn from(refusal: Refusal) -> u8 {
        refusal as u8
    }
}

impl fmt::Display for Refusal {
    fn fmt<W: fmt::Write>(&self, f: &mut fmt::Formatter<W>) -> fmt::Result {
        write!(f, "refusal {}", u8::from(*self))
    }
}

impl Error for Refusal {}
