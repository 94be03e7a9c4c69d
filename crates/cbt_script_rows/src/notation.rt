//! Scripts in one line. `~n`, `~r` and `~t` stand for a line feed, a carriage return and a tab,
//! `~xff` for a byte by its two digits, and `~` alone for nothing. `~(3|doc d~# 1~n~)` stands for the
//! text behind the bar so many times, in which `~#` is the number of the time, from 1.

use std::alloc::{AllocError, Global};

/// A text in one line.
pub fn in_one_line(alloc: Global, text: &str) -> Result<String, AllocError> {
    let mut line = String::new(alloc);
    for (place, piece) in text.split('\n').enumerate() {
        if place > 0 {
            line.push_str("~n")?;
        }
        line.push_str(piece)?;
    }
    Ok(line)
}

/// The bytes that a notation stands for.
pub fn bytes_of(alloc: Global, notation: &str) -> Result<Vec<u8>, AllocError> {
    let mut bytes = Vec::new(alloc);
    for (place, piece) in notation.split("~(").enumerate() {
        if place == 0 {
            push_plain(&mut bytes, piece, 0)?;
        } else {
            push_repeated(&mut bytes, piece)?;
        }
    }
    Ok(bytes)
}

// Puts what stands behind `~(` at the end: the repeated text, and the plain one behind it.
fn push_repeated(bytes: &mut Vec<u8>, piece: &str) -> Result<(), AllocError> {
    let (repeated, behind) = piece.split_once("~)").unwrap_or((piece, ""));
    let (count, text) = repeated.split_once('|').unwrap_or(("0", repeated));
    for number in 0..count.parse::<u32>().unwrap_or(0) {
        push_plain(bytes, text, u64::from(number).saturating_add(1))?;
    }
    push_plain(bytes, behind, 0)
}

// Puts a text without repetitions at the end.
fn push_plain(bytes: &mut Vec<u8>, text: &str, number: u64) -> Result<(), AllocError> {
    for (place, piece) in text.split('~').enumerate() {
        if place == 0 {
            bytes.extend_from_slice(piece.as_bytes())?;
        } else {
            push_escaped(bytes, piece.as_bytes(), number)?;
        }
    }
    Ok(())
}

// Puts what stands behind a `~` at the end.
fn push_escaped(bytes: &mut Vec<u8>, piece: &[u8], number: u64) -> Result<(), AllocError> {
    let rest = match piece {
        [b'n', rest @ ..] => {
            bytes.push(b'\n')?;
            rest
        }
        [b'r', rest @ ..] => {
            bytes.push(b'\r')?;
            rest
        }
        [b't', rest @ ..] => {
            bytes.push(b'\t')?;
            rest
        }
        [b'x', high, low, rest @ ..] => {
            bytes.push(digit(*high).wrapping_mul(16).wrapping_add(digit(*low)))?;
            rest
        }
        [b'#', rest @ ..] => {
            let digits = format!(in bytes.allocator().clone()?; "{number}")?;
            bytes.extend_from_slice(digits.as_bytes())?;
            rest
        }
        rest => rest,
    };
    bytes.extend_from_slice(rest)
}

// What a digit of base 16 is worth.
fn digit(byte: u8) -> u8 {
    match byte {
        b'0'..=b'9' => byte - b'0',
        b'a'..=b'f' => byte - b'a' + 10,
        _ => 0,
    }
}
