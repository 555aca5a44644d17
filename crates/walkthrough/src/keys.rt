//! The keys and the pads of the demonstration.
use family::RawKey;
use pads::CipherSource;

// The small MAC-C key, whose every number can be checked by hand.
pub(crate) const SMALL: RawKey = RawKey {
    degree: 3,
    coefficients: 3,
    state: 4,
    reach: 7,
};

// The cipher source of the demonstration. A maker draws its key and nonce; these are for show.
pub(crate) fn cipher() -> CipherSource {
    CipherSource::new(*b"a key for show, 32 bytes of it..", *b"and a nonce.")
}
