//! A cipher source: the word of a slot is cut from the ChaCha20 key stream.
ghost use Rattle.pads.specs.Sources.{cipher_words};
ghost use Rattle.std.specs.Prelude.{◌≡◌};

use crate::source::{PadFault, PadSource};

// The slot is the block counter, so a key with a nonce covers every slot but 0, each with a block of its own.
#[derive(Drop)]
pub struct CipherSource {
    key: [u8; 32],
    nonce: [u8; 12],
}

impl CipherSource {
    pub fn new(key: [u8; 32], nonce: [u8; 12]) -> CipherSource
        ensures key { result.key ≡ key }
        ensures nonce { result.nonce ≡ nonce }
    {
        CipherSource { key, nonce }
    }
}

impl PadSource for CipherSource {
    ghost words = { λ c slot. cipher_words c.key c.nonce slot };

    fn word(&self, slot: u32) -> Result<u64, PadFault> {
        if slot == 0 {
            return Err(PadFault { slot });
        }
        let [a, b, c, d, e, f, g, h, ..] = chacha20::block(&self.key, &self.nonce, slot);
        Ok(u64::from_be_bytes([a, b, c, d, e, f, g, h]))
    }
}
