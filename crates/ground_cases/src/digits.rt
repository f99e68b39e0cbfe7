//! Bytes from hexadecimal digits.
use disk_trait::{Memory, Text};
use std::alloc::Global;

/// The bytes of digits, two each; all that is no digit is skipped.
pub(crate) fn bytes_of(alloc: Global, digits: &str) -> Result<Text, Memory> {
    let mut bytes = Text::new(alloc);
    let mut high = None;
    for digit in digits.as_bytes() {
        let value = match digit {
            b'0'..=b'9' => digit - b'0',
            b'a'..=b'f' => digit - b'a' + 10,
            _ => continue,
        };
        match high {
            None => high = Some(value),
            Some(front) => {
                bytes.push(front % 16 * 16 + value % 16)?;
                high = None;
            }
        }
    }
    Ok(bytes)
}
