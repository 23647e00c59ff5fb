// Theorems about ciphered links, and no code: the cipher is never chosen unasked and never left out where it alone is
// asked for, two links of which the tables say so get 9, and two that choose the cipher derive the same keys, with the
// same key and cards that agree.
//
// They speak of the definitions that the contracts of the crates below equate every call with, so they hold of the
// code, after every list of calls (crate link_calls). The theorems to read are `unasked` and `never-clear`
// (proofs/Unasked.antt), `unmet` (proofs/Unmet.antt) and `same_keys` (proofs/SameKeys.antt); that two links which meet
// open and agree is in the crate `pair`.
#![tactic(auto)]
