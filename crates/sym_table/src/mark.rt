//! The byte-order mark.
ghost use Rattle.std.specs.Prelude.{◌≡◌};
ghost use Rattle.csv.specs.Reading.{is_bom, strip_bom};

fn is_mark(first: u8, second: u8, third: u8) -> bool
    ensures { result ≡ is_bom first second third }
{
    first == 0xEF && second == 0xBB && third == 0xBF
}

/// The bytes after one byte-order mark EF BB BF, where they begin with it.
pub fn without_mark(bytes: &[u8]) -> &[u8]
    ensures { result.now ≡ strip_bom bytes.now }
{
    if bytes.len() < 3 {
        return bytes;
    }
    if is_mark(bytes[0], bytes[1], bytes[2]) {
        &bytes[3..]
    } else {
        bytes
    }
}
