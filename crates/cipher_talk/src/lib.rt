// Theorems about a whole ciphered exchange, and no code: what one end says, the other hears as it was meant.
//
// They join the links (pair, pair_messages, link_padding), the keys (cipher_choice) and the cipher (cipher_laws), in
// terms of the definitions that the calls are proved to equal. The theorems to read are `any-pieces`
// (proofs/Pieces.antt), `turn-heard` and `all-turns-heard` (proofs/Turns.antt), `whole-exchange` (proofs/Exchange.antt)
// and, with all of it from set-up on, `derived-exchange` (proofs/DerivedExchange.antt); specs/ has their words.
#![tactic(auto)]
