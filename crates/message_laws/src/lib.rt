// Theorems on RPC messages; no code.
//
// What a writer leaves at the front of a lent buffer, cut to the size that it answers, reads back to what was asked for,
// whatever bytes stand behind it; and each form of an error reads to the one meaning. Payloads and errors read so
// behind a reqResultHeader too, which we never write. The statements are in proofs/, in terms of the definitions of the
// crates below.
#![tactic(auto)]
