// What any list of calls on one link is, the ways of each call, and that all of them keep KeyID: no code.
//
// The theorems over every list of calls (crates link_versions, link_padding, cipher_choice and cipher_talk) speak of
// `Call` and `after_calls` (specs/Calls.antt), and need to look at each way of a call alone (proofs/Ways.antt): what
// holds of each way holds of the call.
#![tactic(auto)]
