// What the arms of the cipher's tables owe (proofs/Arms): each table of a round is a `match` of 256 arms in a crate of
// its own, for the reason that stands there.
//
// No function is here. An arm is held to a test that is computed from the definitions of crate aes, so no table is
// trusted. The numbers that are matched start at 256: from 0 on they are bytes, which the compiler takes for signed
// and turns at each look-up. `Twice` (specs/Twice) says what the tables of words hold: a word two times, so that a
// turned word is a part of it.
#![tactic(auto)]
