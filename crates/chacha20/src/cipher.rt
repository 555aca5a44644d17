//! The ChaCha20 block function, in the order in which RFC 8439 builds it up.
ghost use Rattle.std.specs.Prelude.{◌≡◌, ◌+◌, ◌<◌, ◌≤◌, length};
ghost use Rattle.chacha20.specs.Block.{quarter_round, quarter_round_at, column_round, diagonal_round, double_rounds};
ghost use Rattle.chacha20.specs.Block.{word_at, initial_state, sums, serialized, block as the_block};

// "expand 32-byte k" in four words, which every initial state begins with (section 2.3).
const CONSTANTS: [u32; 4] = [0x61707865, 0x3320646e, 0x79622d32, 0x6b206574];

// Section 2.1.
fn quarter_round(a: u32, b: u32, c: u32, d: u32) -> (u32, u32, u32, u32)
    ensures { result ≡ quarter_round a b c d }
{
    let a = a.wrapping_add(b);
    let d = (d ^ a).rotate_left(16);
    let c = c.wrapping_add(d);
    let b = (b ^ c).rotate_left(12);
    let a = a.wrapping_add(b);
    let d = (d ^ a).rotate_left(8);
    let c = c.wrapping_add(d);
    let b = (b ^ c).rotate_left(7);
    (a, b, c, d)
}

// Section 2.2: the quarter round on the words at four places of the state.
fn quarter_round_at(state: &mut [u32; 16], i: usize, j: usize, k: usize, l: usize)
    requires { (i < 16) × ((j < 16) × ((k < 16) × (l < 16))) }
    ensures { state.new ≡ quarter_round_at state.old i j k l }
{
    let (a, b, c, d) = quarter_round(state[i], state[j], state[k], state[l]);
    state[i] = a;
    state[j] = b;
    state[k] = c;
    state[l] = d;
}

fn column_round(state: &mut [u32; 16])
    ensures { state.new ≡ column_round state.old }
{
    quarter_round_at(state, 0, 4, 8, 12);
    quarter_round_at(state, 1, 5, 9, 13);
    quarter_round_at(state, 2, 6, 10, 14);
    quarter_round_at(state, 3, 7, 11, 15);
}

fn diagonal_round(state: &mut [u32; 16])
    ensures { state.new ≡ diagonal_round state.old }
{
    quarter_round_at(state, 0, 5, 10, 15);
    quarter_round_at(state, 1, 6, 11, 12);
    quarter_round_at(state, 2, 7, 8, 13);
    quarter_round_at(state, 3, 4, 9, 14);
}

fn twenty_rounds(state: &mut [u32; 16])
    ensures { state.new ≡ double_rounds 10 state.old }
{
    for _i in 0..10u32 {
        column_round(state);
        diagonal_round(state);
    }
}

// The word that stands in four of the bytes, from place i on, the lowest byte first.
fn word_at(bytes: &[u8], i: usize) -> u32
    requires { i + 4 ≤ length bytes.now }
    ensures { result ≡ word_at bytes.now i }
{
    u32::from_le_bytes([bytes[i], bytes[i + 1], bytes[i + 2], bytes[i + 3]])
}

fn initial_state(key: &[u8; 32], nonce: &[u8; 12], counter: u32) -> [u32; 16]
    ensures { result ≡ initial_state key.now nonce.now counter }
{
    [
        CONSTANTS[0],
        CONSTANTS[1],
        CONSTANTS[2],
        CONSTANTS[3],
        word_at(key, 0),
        word_at(key, 4),
        word_at(key, 8),
        word_at(key, 12),
        word_at(key, 16),
        word_at(key, 20),
        word_at(key, 24),
        word_at(key, 28),
        counter,
        word_at(nonce, 0),
        word_at(nonce, 4),
        word_at(nonce, 8),
    ]
}

// Adds the initial state to the state, place by place, without which the rounds could be run backwards.
fn add_words(state: &mut [u32; 16], initial: &[u32; 16])
    ensures { state.new ≡ sums state.old initial.now }
{
    // Indexed on one side: nothing is known of what is written behind an adapter of `iter_mut`, and `array::from_fn` indexes both.
    for (i, word) in initial.iter().enumerate() {
        state[i] = state[i].wrapping_add(*word);
    }
}

fn serialize(state: &[u32; 16]) -> [u8; 64]
    ensures { result ≡ serialized state.now }
{
    let mut out = [0u8; 64];
    // As above, of `chunks_exact_mut`.
    for (i, word) in state.iter().enumerate() {
        out[4 * i..4 * i + 4].copy_from_slice(&word.to_le_bytes());
    }
    out
}

// The 64 bytes of the key stream at a block counter (section 2.3), for every key, nonce and counter.
pub fn block(key: &[u8; 32], nonce: &[u8; 12], counter: u32) -> [u8; 64]
    ensures { result ≡ the_block key.now nonce.now counter }
{
    let initial = initial_state(key, nonce, counter);
    let mut state = initial;
    twenty_rounds(&mut state);
    add_words(&mut state, &initial);
    serialize(&state)
}

#[cfg(test)]
mod tests {
    use super::{quarter_round, quarter_round_at};

    // Section 2.1.1.
    #[test]
    fn quarter_round_of_four_words(rt: HostRuntime) {
        let (a, b, c, d) = quarter_round(0x11111111, 0x01020304, 0x9b8d6f43, 0x01234567);
        assert_eq!(rt;
            [a, b, c, d],
            [0xea2a92f4, 0xcb1cf8ce, 0x4581472e, 0x5881c4bb]
        );
    }

    // Section 2.2.1.
    #[test]
    fn quarter_round_on_a_state(rt: HostRuntime) {
        let mut state = [
            0x879531e0, 0xc5ecf37d, 0x516461b1, 0xc9a62f8a, 0x44c20ef3, 0x3390af7f, 0xd9fc690b,
            0x2a5f714c, 0x53372767, 0xb00a5631, 0x974c541a, 0x359e9963, 0x5c971061, 0x3d631689,
            0x2098d9d6, 0x91dbd320,
        ];
        quarter_round_at(&mut state, 2, 7, 8, 13);
        assert_eq!(rt;
            state,
            [
                0x879531e0, 0xc5ecf37d, 0xbdb886dc, 0xc9a62f8a, 0x44c20ef3, 0x3390af7f, 0xd9fc690b,
                0xcfacafd2, 0xe46bea80, 0xb00a5631, 0x974c541a, 0x359e9963, 0x5c971061, 0xccc07c79,
                0x2098d9d6, 0x91dbd320,
            ]
        );
    }
}
