// Words of cases: a name, the equals sign, and a value. And numbers as text.
use std::alloc::{AllocError, Global};

/// What stands behind a name.
pub fn value_of<'a>(words: &'a str, name: &str) -> Option<&'a str> {
    for word in words.split(' ') {
        if let Some((place, value)) = word.split_once('=')
            && place == name
        {
            return Some(value);
        }
    }
    None
}

/// The number in hexadecimal digits behind a name.
pub fn number_of(words: &str, name: &str) -> Option<u128> {
    u128::from_str_radix(value_of(words, name)?, 16).ok()
}

/// Bytes in hexadecimal digits, with commas between them.
pub fn bytes_of(alloc: Global, text: &str) -> Result<Vec<u8>, AllocError> {
    let mut bytes = Vec::new(alloc);
    for part in text.split(',') {
        if let Ok(byte) = u8::from_str_radix(part, 16) {
            bytes.push(byte)?;
        }
    }
    Ok(bytes)
}

/// Adds a number in decimal digits behind a name.
pub fn push_number(text: &mut String, name: &str, number: u32) -> Result<(), AllocError> {
    text.push_str(name)?;
    write!(text, "{number}")
}

/// Adds a byte in two hexadecimal digits behind a name.
pub fn push_byte(text: &mut String, name: &str, byte: u8) -> Result<(), AllocError> {
    text.push_str(name)?;
    write!(text, "{byte:02x}")
}

/// Adds a word in four hexadecimal digits behind a name.
pub fn push_word(text: &mut String, name: &str, word: u16) -> Result<(), AllocError> {
    text.push_str(name)?;
    write!(text, "{word:04x}")
}
