// Texts in one word or line: `|` stands for a newline, `^` for a carriage return and `~` for a tab.
use crate::fault::Fault;
use std::alloc::Global;

/// The bytes of the text.
pub fn bytes_of(alloc: Global, text: &str) -> Result<Vec<u8>, Fault> {
    let mut bytes = Vec::new(alloc);
    for byte in text.bytes() {
        bytes.push(match byte {
            b'|' => b'\n',
            b'^' => b'\r',
            b'~' => b'\t',
            other => other,
        })?;
    }
    Ok(bytes)
}

/// The first letters of the text, so many.
pub fn cut(alloc: Global, text: &str, count: usize) -> Result<String, Fault> {
    let mut front = String::new(alloc);
    for letter in text.chars().take(count) {
        front.push(letter)?;
    }
    Ok(front)
}

/// The text, so many times.
pub fn repeat(alloc: Global, text: &str, count: usize) -> Result<String, Fault> {
    let mut whole = String::new(alloc);
    for _ in 0..count {
        whole.push_str(text)?;
    }
    Ok(whole)
}

/// The texts one behind the other.
pub fn join(alloc: Global, texts: &[&str]) -> Result<String, Fault> {
    let mut whole = String::new(alloc);
    for text in texts {
        whole.push_str(text)?;
    }
    Ok(whole)
}

/// The text with another line in the place of one, which is counted from 1.
pub fn with_line(alloc: Global, text: &str, number: usize, line: &str) -> Result<String, Fault> {
    let mut whole = String::new(alloc);
    let mut place: usize = 0;
    for old in text.split_terminator('|') {
        place = place.saturating_add(1);
        whole.push_str(if place == number { line } else { old })?;
        whole.push('|')?;
    }
    Ok(whole)
}
