//! Bytes that differ, as texts.
use std::alloc::Global;
use sym_base::NoMemory;

/// The most bytes that a text shows.
const MOST: usize = 120;

// A line end, a byte that no text shows, and each other byte as it is.
fn push_byte(alloc: Global, text: &mut String, byte: u8) -> Result<(), NoMemory> {
    if byte == b'\n' {
        text.push_str("\\n")?;
    } else if byte < b' ' || byte > b'~' {
        text.push_str(format!(in alloc; "\\x{byte:02x}")?.as_str())?;
    } else {
        text.push(char::from(byte))?;
    }
    Ok(())
}

// The bytes from this place on.
fn text_from(alloc: Global, bytes: &[u8], place: usize) -> Result<String, NoMemory> {
    let mut text = String::new(alloc);
    'bytes: for byte in bytes.iter().skip(place).take(MOST) {
        push_byte(alloc, &mut text, *byte)?;
    }
    Ok(text)
}

// The place of the first byte that differs.
fn first_place(found: &[u8], wanted: &[u8]) -> usize {
    'bytes: for (place, (byte, other)) in found.iter().zip(wanted.iter()).enumerate() {
        if byte != other {
            return place;
        }
    }
    found.len().min(wanted.len())
}

/// What is found and what is wanted, if they differ: whole if they are short, else from the first
/// byte that differs.
pub fn bytes_differ(
    alloc: Global,
    found: &[u8],
    wanted: &[u8],
) -> Result<Option<String>, NoMemory> {
    if found == wanted {
        return Ok(None);
    }
    let place = if found.len() <= MOST && wanted.len() <= MOST {
        0
    } else {
        first_place(found, wanted)
    };
    let found = text_from(alloc, found, place)?;
    let wanted = text_from(alloc, wanted, place)?;
    if place == 0 {
        return Ok(Some(format!(in alloc; "found \"{found}\", wanted \"{wanted}\"")?));
    }
    Ok(Some(format!(in alloc; "from byte {place} on found \"{found}\", wanted \"{wanted}\"")?))
}
