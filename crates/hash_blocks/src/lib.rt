// What MD5 and SHA-1 share: how a message is filled up to whole blocks of 64 bytes, how these are taken in one after
// another, and the words of their definitions.
//
// `hash` takes in a message of any length. It is not copied: its whole blocks are read where they stand, and only the
// last one or two are made up, by `put_end`. Nothing here knows a hash: what one block does to a state is said by an
// `impl` of `BlockHash`. The definitions are in specs/: `filled`, `end_of`, `chained` and `hashed` in Blocks.antt,
// `plus`, `rotl` and `be` in Words.antt.
#![tactic(auto)]

ghost use Rattle.std.specs.Prelude.{◌≡◌, ℕ, List};

mod end;
mod whole;

pub use end::put_end;
pub use whole::hash;

// A hash, with the tables that it reads, and the state that goes from block to block.
pub trait BlockHash {
    type State: Copy;

    ghost after: { Self.State → List ℕ → Self.State };

    fn compress(&self, state: Self::State, block: &[u8; 64]) -> Self::State
        ensures { result ≡ after state block.now };
}
