//! Tokens and blanks.
ghost use Rattle.std.specs.Prelude.{◌≡◌, ◌++◌, ◌*◌, ◌∷◌, [], OnOk, replicate};
ghost use Rattle.std.specs.Fmt.{signed_decimal};
ghost use Rattle.sym_lex.specs.Quoting.{escaped, quoted};
ghost use Rattle.sym_parse.specs.Printed.{indent};

use itoa::Buffer;
use sym_base::{NoMemory, Text};

/// Appends these bytes.
pub fn put(out: &mut Vec<u8>, bytes: &[u8]) -> Result<(), NoMemory>
    ensures { OnOk result (out.new.items ≡ out.old.items ++ bytes.now) }
{
    out.extend_from_slice(bytes)?;
    Ok(())
}

/// Appends a number without leading zeros, its `-` right before it.
pub fn put_number(out: &mut Vec<u8>, number: i64) -> Result<(), NoMemory>
    ensures { OnOk result (out.new.items ≡ out.old.items ++ signed_decimal number) }
{
    let mut buffer = Buffer::new();
    put(out, buffer.format(number).as_bytes())
}

// Appends a byte of a text, after a `\` if it is a `"` or a `\`.
fn put_escaped(out: &mut Vec<u8>, byte: u8) -> Result<(), NoMemory>
    ensures { OnOk result (out.new.items ≡ out.old.items ++ escaped (byte ∷ [])) }
{
    if byte == b'"' || byte == b'\\' {
        out.push(b'\\')?;
    }
    out.push(byte)?;
    Ok(())
}

/// Appends a text between quotes, escaped.
#[tactic(auto, using(crate::proofs::Printout::Appended::escaped_more))]
pub fn put_text(out: &mut Vec<u8>, text: &Text) -> Result<(), NoMemory>
    ensures { OnOk result (out.new.items ≡ out.old.items ++ quoted text.now) }
{
    put(out, b"\"")?;
    'bytes: for byte in text.as_bytes() {
        put_escaped(out, *byte)?;
    }
    put(out, b"\"")
}

/// Appends the indentation of a line inside so many blocks.
pub fn put_indent(out: &mut Vec<u8>, blocks: usize) -> Result<(), NoMemory>
    ensures { OnOk result (out.new.items ≡ out.old.items ++ indent blocks) }
{
    'levels: for block in 0..blocks {
        put(out, b"  ")?;
    }
    Ok(())
}
