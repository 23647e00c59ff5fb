// Theorems about two links, and no code: what one sends, the other receives as the same packet.
//
// They speak of the definitions that the contracts of the crates below equate every call with, so they hold of the code.
// The round trip is in proofs/RoundTrip.antt, the opening of two links against each other, by their send and receive
// calls, in proofs/Opening.antt, that open links go on alike in proofs/StepAlike.antt, that a peer reads the NetPIDs
// that were sent in proofs/Pids.antt, and that it reads our Nonce in proofs/NonceBack.antt. specs/ has what they assume.
#![tactic(auto)]
