//! Whole numbers, and stamps in the form of the server's macro.
ghost use Rattle.std.specs.Prelude.{◌≡◌, bytes_eq};
ghost use Rattle.std.specs.Int.{to_le_bytes, w64};
ghost use Rattle.hex.specs.Hex.{decode_sized, encode_lower};
ghost use Rattle.cbt_json.specs.declared.tree.Tree.{out-Tree};
ghost use Rattle.cbt_shape.specs.Numbers.{whole_of, decoded, macro_in};

use cbt_json::Tree;

/// The whole number from 0 to 2^64-1 that a value is.
pub(crate) fn whole_of(tree: &Tree) -> Option<u64>
    ensures { result ≡ whole_of (out-Tree tree.now) }
{
    match tree {
        Tree::Whole(n) if 0 <= *n && *n <= u64::MAX as i128 => Some(*n as u64),
        _ => None,
    }
}

/// The stamp that the server's macro writes so: `0x` and 16 lower-case digits, least byte first.
pub(crate) fn number_of_macro(text: &str) -> Option<u64>
    ensures { result ≡ macro_in text.now }
{
    let [b'0', b'x', digits @ ..] = text.as_bytes() else {
        return None;
    };
    let n = u64::from_le_bytes(eight_bytes(digits)?);
    // Upper case is decoded too, so what was read is written again.
    if are_digits_of(n, digits) {
        Some(n)
    } else {
        None
    }
}

// The eight bytes of sixteen digits.
fn eight_bytes(digits: &[u8]) -> Option<[u8; 8]>
    ensures { result ≡ decoded (decode_sized digits.now 8) }
{
    let mut bytes = [0u8; 8];
    match hex::decode_to_slice(digits, &mut bytes) {
        Ok(()) => Some(bytes),
        Err(_) => None,
    }
}

// Whether a number is written with these digits, in lower case and least byte first.
fn are_digits_of(n: u64, digits: &[u8]) -> bool
    ensures { result ≡ bytes_eq digits.now (encode_lower (to_le_bytes w64 n)) }
{
    let mut written = [0u8; 16];
    match hex::encode_to_slice(n.to_le_bytes(), &mut written) {
        Ok(()) => digits == written.as_slice(),
        Err(_) => false,
    }
}
