//! Writing a saved run.
ghost use Rattle.std.specs.Prelude.{◌≡◌, ◌++◌, IfOk, OnOk, codes};
ghost use Rattle.std.specs.List.{All, flat_map};
ghost use Rattle.sym_file.specs.SavedTexts.{printed};
ghost use Rattle.sym_file.specs.Stored.{AreStored, IsStored, IsStoredGroup, IsStoredChain, IsStoredValue};
ghost use Rattle.sym_file.specs.Texts.{body_text, chain_text, group_text, head_text, key_text, listed, saved_text};

use crate::writer::{put, put_listed, put_number, put_spaced};
use std::alloc::Global;
use sym_base::{Key, NoMemory};
use sym_check::Checked;
use sym_parse::print;
use sym_run::{Chain, RunGroups, Saved};

fn put_key(out: &mut Vec<u8>, key: &Key) -> Result<(), NoMemory>
    ensures text { OnOk result (out.new.items ≡ out.old.items ++ key_text key.now) }
    ensures stored { OnOk result (All IsStoredValue key.now.values) }
{
    put(out, b"key")?;
    put_spaced(out, key.values.as_slice())?;
    put(out, b"\n")
}

#[tactic(auto, unfolding(crate::specs::Texts::chain_text))]
fn put_chain(out: &mut Vec<u8>, chain: &Chain) -> Result<(), NoMemory>
    ensures text { OnOk result (out.new.items ≡ out.old.items ++ chain_text chain.now) }
    ensures stored { OnOk result (IsStoredChain chain.now) }
{
    put_listed(out, b"chain ", chain.segments())
}

#[tactic(auto, unfolding(crate::specs::Texts::group_text))]
fn put_group(out: &mut Vec<u8>, key: &Key, chain: &Chain) -> Result<(), NoMemory>
    ensures text { OnOk result
        (out.new.items ≡ out.old.items ++ group_text (key.now, chain.now)) }
    ensures stored { OnOk result (IsStoredGroup (key.now, chain.now)) }
{
    put_key(out, key)?;
    put_chain(out, chain)
}

fn put_groups(out: &mut Vec<u8>, groups: &RunGroups) -> Result<(), NoMemory>
    ensures text { OnOk result
        (out.new.items ≡ out.old.items ++ flat_map group_text groups.now) }
    ensures stored { OnOk result (AreStored IsStoredGroup groups.now) }
{
    'groups: for index in 0..groups.len() {
        if let Some((key, chain)) = groups.at(index) {
            put_group(out, key, chain)?;
        }
    }
    Ok(())
}

/// Appends the number of the groups, and the groups.
fn put_all_groups(out: &mut Vec<u8>, groups: &RunGroups) -> Result<(), NoMemory>
    ensures text { OnOk result
        (out.new.items ≡ out.old.items ++ listed (codes "groups ") group_text groups.now) }
    ensures stored { OnOk result (AreStored IsStoredGroup groups.now) }
{
    put(out, b"groups ")?;
    put_number(out, groups.len())?;
    put(out, b"\n")?;
    put_groups(out, groups)
}

#[tactic(auto, unfolding(crate::specs::Texts::head_text))]
fn put_head(out: &mut Vec<u8>, script: &[u8]) -> Result<(), NoMemory>
    ensures { OnOk result (out.new.items ≡ out.old.items ++ head_text script.now) }
{
    put(out, b"symple run 1\n")?;
    put(out, b"script ")?;
    put_number(out, script.len())?;
    put(out, b"\n")?;
    put(out, script)
}

#[tactic(auto, unfolding(crate::specs::Texts::body_text))]
fn put_body(out: &mut Vec<u8>, saved: &Saved) -> Result<(), NoMemory>
    ensures text { OnOk result (out.new.items ≡ out.old.items ++ body_text saved.now) }
    ensures stored { OnOk result (IsStored saved.now) }
{
    put(out, b"first ")?;
    put_number(out, saved.first)?;
    put(out, b"\n")?;
    put(out, b"next ")?;
    put_number(out, saved.next)?;
    put(out, b"\n")?;
    put_all_groups(out, &saved.groups)?;
    put(out, b"end\n")
}

/// The text of a saved run of the script. It is made whole before it is given. Of a chain it has the
/// segments alone: what a chain keeps isn't written, and a lawful saved run keeps nothing.
pub fn write_saved(alloc: Global, checked: &Checked, saved: &Saved) -> Result<Vec<u8>, NoMemory>
    ensures text { IfOk result (λ bytes.
        bytes.items ≡ saved_text (printed checked.now) saved.now) }

    // Such a saved run is read back, as `read_saved` says.
    ensures stored { IfOk result (λ bytes. IsStored saved.now) }
{
    let script = print(alloc, checked.script())?;
    let mut out = Vec::new(alloc);
    put_head(&mut out, &script)?;
    put_body(&mut out, saved)?;
    Ok(out)
}
