// Theorems on single bytes of the cipher; no code.
//
// Each is a test that is computed at all 256 bytes: a byte times its inverse is 1, the substitution is undone, and the
// products of the two matrices cancel. They stand apart so that nothing else has to compute them again. The statements
// are in proofs/Bytes, in terms of the definitions of crate aes.
#![tactic(auto)]
