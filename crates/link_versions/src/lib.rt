// Theorems about the calls on one link, and no code: no link has accepted, or writes, a version older than its lowest, and
// of a Nonce that was accepted the clock difference is handed back, and what a derivation of keys needs.
//
// They speak of the definitions that the contracts of the crates below equate every call with, so they hold of the code,
// after every list of calls (crate link_calls). The theorems to read are in proofs/NoOlder.antt,
// proofs/WritesNoOlder.antt, proofs/HandedBack.antt and proofs/AcceptedNonce.antt; proofs/AsBase.antt and
// proofs/ReceiveAsBase.antt say that with lowest version 0 set-up and receive are what they were before there was one
// (specs/Before.antt).
#![tactic(auto)]
