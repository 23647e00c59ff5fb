// Theorems about padded links, and no code: what they write is counted, flushes bring it to whole blocks of 16 bytes
// by few words, what is sent behind a flush is received, and links that are not padded are as they were.
//
// They speak of the definitions that the contracts of the crates below equate every call with, so they hold of the
// code, after every list of calls (crate link_calls). The theorems to read are `counted`, `level`, `few_words` and
// `none_before` (proofs/Level.antt, over specs/Tally.antt, which counts from the calls' answers alone),
// `flushed-received` (proofs/SentBehind.antt), and `as_before` (proofs/Before.antt, over specs/Before.antt, the rules
// from before).
#![tactic(auto)]
