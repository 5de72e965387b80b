//! The blanks round a number or a label.
ghost use Rattle.std.specs.Prelude.{◌≡◌};
ghost use Rattle.sym_table.specs.Texts.{is_blank, drop_blanks, cut_blanks, without_blanks};

// A space or a tab.
fn is_blank(byte: u8) -> bool
    ensures { result ≡ is_blank byte }
{
    byte == b' ' || byte == b'\t'
}

fn drop_blanks(text: &[u8]) -> &[u8]
    ensures { result.now ≡ drop_blanks text.now }
{
    'bytes: for (at, byte) in text.iter().enumerate() {
        if !is_blank(*byte) {
            return &text[at..];
        }
    }
    &[]
}

fn cut_blanks(text: &[u8]) -> &[u8]
    ensures { result.now ≡ cut_blanks text.now }
{
    let mut end = text.len();
    'bytes: while end > 0 && is_blank(text[end - 1]) {
        end -= 1;
    }
    &text[..end]
}

/// The text without the blanks at its ends.
pub fn without_blanks(text: &[u8]) -> &[u8]
    ensures { result.now ≡ without_blanks text.now }
{
    cut_blanks(drop_blanks(text))
}
