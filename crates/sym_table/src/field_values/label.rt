//! Labels of records.
ghost use Rattle.std.specs.Prelude.{◌≡◌, ◌≤◌, length};
ghost use Rattle.sym_base.specs.Limits.{max_labels};
ghost use Rattle.sym_table.specs.Texts.{label_in};

use sym_base::{LABELS_MAX, Text};

/// The number of the first label whose name the text is.
pub fn label_in(labels: &[Text], text: &[u8]) -> Option<u8>
    requires { length labels.now ≤ max_labels }
    ensures { result ≡ label_in labels.now text.now }
{
    'labels: for (label, name) in labels.iter().enumerate() {
        if name.as_bytes() == text {
            return Some(label as u8);
        }
    }
    None
}
