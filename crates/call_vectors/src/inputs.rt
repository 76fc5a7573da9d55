//! The inputs of a call.

use std::alloc::Global;
use std::io::{self, ErrorKind};

/// The inputs in their order.
#[derive(Drop)]
pub struct Inputs {
    texts: Vec<String>,
}

impl Inputs {
    /// The texts of these digits, which tabs part.
    pub fn read(alloc: Global, line: &str) -> io::Result<Inputs> {
        let mut texts = Vec::new(alloc);
        for digits in line.split('\t') {
            texts.push(text_of(alloc, digits)?)?;
        }
        Ok(Inputs { texts })
    }

    /// The input at this place, which is empty where there is none.
    pub fn text(&self, place: usize) -> &str {
        self.texts.get(place).map_or("", String::as_str)
    }

    /// The number at this place, if it is one.
    pub fn count(&self, place: usize) -> Option<usize> {
        self.text(place).parse::<usize>().ok()
    }

    /// The inputs from this place on.
    pub fn from(&self, place: usize) -> &[String] {
        self.texts.get(place..).unwrap_or(&[])
    }
}

/// The text whose UTF-8 bytes these digits are.
pub fn text_of(alloc: Global, digits: &str) -> io::Result<String> {
    let mut bytes = Vec::new(alloc);
    for pair in digits.as_bytes().chunks(2) {
        bytes.push(byte_of(pair))?;
    }
    match String::from_utf8(bytes) {
        Ok(text) => Ok(text),
        Err(_) => Err(io::Error::new(ErrorKind::InvalidInput, "an input is not UTF-8")),
    }
}

/// The byte of two digits.
fn byte_of(digits: &[u8]) -> u8 {
    digits.iter().fold(
        0,
        |byte: u8, &digit| byte.wrapping_mul(16).wrapping_add(digit_of(digit)),
    )
}

fn digit_of(digit: u8) -> u8 {
    match digit {
        b'0'..=b'9' => digit - b'0',
        b'a'..=b'f' => digit - b'a' + 10,
        _ => 0,
    }
}
