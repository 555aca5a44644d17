//! CRC keys: the columns of a text are the powers of x modulo a generator polynomial.
#![tactic(auto)]

mod crc;
mod generator;
mod keys;

pub use keys::CrcKey;
