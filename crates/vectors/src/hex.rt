//! Bytes written in hexadecimal digits. The kit's library `hex` reads capital letters too, which the table has not.
ghost use Rattle.vectors.specs.Digit.{hex_digit};
ghost use Rattle.std.specs.Prelude.{◌≡◌};

// As many bytes as are asked for, two digits each, and nothing else.
pub(crate) fn from_hex<const N: usize>(text: &str) -> Option<[u8; N]> {
    let (pairs, odd) = text.as_bytes().as_chunks::<2>();
    if pairs.len() != N || !odd.is_empty() {
        return None;
    }
    let mut bytes = [0; N];
    for (byte, [high, low]) in bytes.iter_mut().zip(pairs) {
        *byte = 16 * digit(*high)? + digit(*low)?;
    }
    Some(bytes)
}

fn digit(symbol: u8) -> Option<u8>
    ensures { result ≡ hex_digit symbol }
{
    match symbol {
        b'0'..=b'9' => Some(symbol - b'0'),
        b'a'..=b'f' => Some(symbol - b'a' + 10),
        _ => None,
    }
}
