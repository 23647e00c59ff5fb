// The round keys for deciphering (FIPS 197, 5.3.5): `back_keys`, made once from those of enciphering.
//
// The keys of rounds 1 to 13 go through the inverse matrix step, in place in the array that is returned; the first and
// the last stay. Products are computed by doubling, with no table: this is done once for a key. Any 240 bytes are
// round keys. The definition is `back_keys` of crate aes.
#![tactic(auto)]

mod products;
mod rounds;

pub use rounds::back_keys;
