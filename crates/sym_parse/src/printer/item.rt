//! Lists of items.
ghost use Rattle.std.specs.Prelude.{◌≡◌, ◌++◌, List, OnOk};
ghost use Rattle.std.specs.List.{flat_map};
ghost use Rattle.sym_base.specs.declared.tree.name.Name.{Name};
ghost use Rattle.sym_parse.specs.Printed.{Piece, further, listed, one_name, text};

use crate::printer::token::put;
use sym_base::{Name, NoMemory};

/// An item of a list of a script.
pub trait Item {
    /// What its text is made of.
    ghost pieces: { Self → List Piece };

    /// Appends the text.
    fn print(&self, out: &mut Vec<u8>) -> Result<(), NoMemory>
        ensures { OnOk result (out.new.items ≡ out.old.items ++ text (pieces self.now)) };
}

impl Item for Name {
    ghost pieces = { one_name };

    fn print(&self, out: &mut Vec<u8>) -> Result<(), NoMemory> {
        put(out, self.text.as_bytes())
    }
}

/// Appends the items one after another.
#[tactic(auto, using(crate::proofs::Printout::Appended::appended_more))]
pub fn print_all<T: Item>(out: &mut Vec<u8>, items: &[T]) -> Result<(), NoMemory>
    ensures { OnOk result (out.new.items ≡ out.old.items ++ text (flat_map T.pieces items.now)) }
{
    'items: for item in items {
        item.print(out)?;
    }
    Ok(())
}

// Appends the items, each after a `, `.
#[tactic(auto, using(crate::proofs::Printout::Appended::appended_more))]
fn print_further<T: Item>(out: &mut Vec<u8>, items: &[T]) -> Result<(), NoMemory>
    ensures { OnOk result (out.new.items ≡ out.old.items ++ text (further T.pieces items.now)) }
{
    'items: for item in items {
        put(out, b", ")?;
        item.print(out)?;
    }
    Ok(())
}

/// Appends the items with `, ` between them.
#[tactic(auto, using(crate::proofs::Printout::Appended::text_append))]
pub fn print_listed<T: Item>(out: &mut Vec<u8>, items: &[T]) -> Result<(), NoMemory>
    ensures { OnOk result (out.new.items ≡ out.old.items ++ text (listed T.pieces items.now)) }
{
    match items {
        [] => Ok(()),
        [first, rest @ ..] => {
            first.print(out)?;
            print_further(out, rest)
        }
    }
}
