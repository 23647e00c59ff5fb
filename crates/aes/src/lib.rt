// AES-256 (FIPS 197) in CBC mode (NIST SP 800-38A): what it is. No function is here.
//
// specs/ has the definitions, each under the section of the standard that it is read beside: Field and Aes, then Back
// (the equivalent inverse cipher) and Cbc (the mode and the calls). proofs/Vectors has the values that the standard
// prints. The calls are in `aes_keys`, `aes_back_keys`, `aes_encipher` and `aes_decipher`, theorems on them in
// `aes_bytes` and `cipher_laws`.
#![tactic(auto)]

// A block of sixteen bytes as four words, the first byte lowest.
// Kept: an array of four would be no plainer, since each step moves the words by name and none goes over them.
#[derive(Clone, Copy)]
pub struct Quad {
    pub a: u32,
    pub b: u32,
    pub c: u32,
    pub d: u32,
}
