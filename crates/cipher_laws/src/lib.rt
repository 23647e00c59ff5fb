// Theorems on the cipher's calls; no code.
//
// Deciphering undoes enciphering for every key, vector and buffer of whole blocks, and leaves the same vector. Two
// calls in a row are one on the joined buffer, so each side may cut a stream into whole blocks in its own way. The
// statements are in proofs/Calls and proofs/Cutting, in terms of the definitions of crate aes; that the equivalent
// inverse cipher is the inverse cipher is in proofs/Back, and that both are as the standard's figures have them is in
// proofs/Figures.
#![tactic(auto)]
