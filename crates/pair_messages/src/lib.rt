// Theorems about RPC messages between two links, and no code: what one sends, the other receives and reads as the same.
//
// They join the crates `pair` (packets), `message_out` (the send call) and `message_laws` (what was written reads back),
// in terms of the definitions that the calls are proved to equal. The theorems to read are `delivered`, of one message
// (proofs/Delivered.antt), and `all-heard`, of any list of them (proofs/Conversation.antt); specs/ has their words.
#![tactic(auto)]
