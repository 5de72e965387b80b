//! The files of the disk, as a store.
ghost use Rattle.std.specs.Prelude.{◌≡◌, ℕ, ◌≤◌, List, None, length, drop, IfOk, IfSome, OnOk, OnErr};
ghost use Rattle.sym_base.specs.Counts.{Rose};
ghost use Rattle.sym_base.specs.Transfers.{ReadsAt};
ghost use Rattle.symple.specs.Counting.{after_fault, after_read, unread_disk};

use crate::interrupts::TRIES;
use std::alloc::Global;
use std::io::{ErrorKind, Read, Seek, SeekFrom};
use std::marker::Model;
use std::rt::Files;
use std::{fs, io};
use sym_base::{FILE_MAX, Failed, NoMemory, READ_PIECE, Store};

// The most bytes of a file's name. Linux opens no file whose path is longer.
const FILE_NAME_MAX: usize = 4_096;

/// The files of the disk, under their paths. It doesn't tell what they hold. A contract sees how
/// many reads it was asked for, and how many of them failed: one count of faults, for every name.
/// No file is opened but by a read.
///
/// The file that was read last stays open, so that reads which run on neither open nor seek. This
/// also lets it read what has no places, as a pipe, from its beginning to its end.
#[derive(Drop)]
pub struct DiskStore<'a, R: Files> {
    runtime: &'a R,
    // the file that was read last, its name, and where its next read begins
    file: Option<R::File>,
    name: Vec<u8>,
    next: u64,
    // READ_PIECE bytes, through which every read goes
    piece: Vec<u8>,
    reads: u64,
    faults: u64,
}

impl<'a, R: Files> Model for DiskStore<'a, R> {
    ghost use Rattle.std.specs.Prelude.{◌≡◌, length};
    ghost use Rattle.sym_base.specs.declared.limits.TheConstants as limit;
    ghost use Rattle.symple.specs.Counting.{Disk};

    ghost Value = { Disk };

    ghost view = { λ s. record { reads = s.reads; faults = s.faults } };

    ghost invariant = { λ s. length s.piece.items ≡ limit.READ_PIECE };
}

impl<'a, R: Files> DiskStore<'a, R> {
    /// The files that this runtime reaches, of which none is read yet. All memory that its reads
    /// need is taken here.
    pub fn new(alloc: Global, runtime: &'a R) -> Result<DiskStore<'a, R>, NoMemory>
        ensures { IfOk result (λ store. store ≡ unread_disk) }
    {
        let mut piece = Vec::new(alloc);
        piece.resize(READ_PIECE, 0)?;
        Ok(DiskStore {
            runtime,
            file: None,
            name: Vec::with_capacity(alloc, FILE_NAME_MAX)?,
            next: 0,
            piece,
            reads: 0,
            faults: 0,
        })
    }

    // Opens the file of this name, at its beginning.
    fn open(&mut self, name: &str) -> io::Result<()>
        ensures { self.new ≡ self.old }
    {
        if name.len() > FILE_NAME_MAX {
            return Err(io::Error::from(ErrorKind::InvalidInput));
        }
        self.file = None;
        self.name.clear();
        self.name.extend_from_slice(name.as_bytes())?;
        self.file = Some(fs::open(self.runtime, name)?);
        self.next = 0;
        Ok(())
    }

    // Makes the place `at` of the file of this name the one that is read next.
    fn move_to(&mut self, name: &str, at: u64) -> io::Result<()>
        ensures { self.new ≡ self.old }
    {
        if self.file.is_none() || self.name.as_slice() != name.as_bytes() {
            self.open(name)?;
        }
        if self.next != at {
            if let Some(file) = &mut self.file {
                file.seek(SeekFrom::Start(at))?;
            }
            self.next = at;
        }
        Ok(())
    }

    // Reads from the place `at` on. After an `Err` the file is to be opened anew.
    fn read_some(&mut self, name: &str, at: u64, into: &mut [u8]) -> io::Result<usize>
        ensures count { self.new ≡ self.old }
        ensures bound { IfOk result (λ k. k ≤ length into.old) }
        ensures rest { IfOk result (λ k. drop k into.new ≡ drop k into.old) }
    {
        self.move_to(name, at)?;
        let Some(file) = &mut self.file else {
            return Err(io::Error::from(ErrorKind::NotFound));
        };
        let count = read_through(file, self.piece.as_mut_slice(), into)?;
        self.next = self.next.saturating_add(count as u64);
        Ok(count)
    }
}

// One read of a file into the first bytes of `into`, by way of a piece, which keeps its length.
fn read_through<F: Read>(file: &mut F, piece: &mut [u8], into: &mut [u8]) -> io::Result<usize>
    ensures bound { IfOk result (λ k. k ≤ length into.old) }
    ensures rest { IfOk result (λ k. drop k into.new ≡ drop k into.old) }
    ensures length { length piece.new ≡ length piece.old }
{
    let wanted = into.len().min(piece.len());
    let count = read_piece(file, &mut piece[..wanted])?;
    into[..count].copy_from_slice(&piece[..count]);
    Ok(count)
}

// One read of a file, tried again where a signal interrupts it.
fn read_piece<F: Read>(file: &mut F, piece: &mut [u8]) -> io::Result<usize>
    ensures bound { IfOk result (λ k. k ≤ length piece.old) }
    ensures length { length piece.new ≡ length piece.old }
{
    'tries: for _ in 0..TRIES {
        match file.read(piece) {
            Err(error) if error.kind() == ErrorKind::Interrupted => {}
            other => return other,
        }
    }
    Err(io::Error::from(ErrorKind::Interrupted))
}

impl<'a, R: Files> Store for DiskStore<'a, R> {
    ghost holds = { λ _ _. None };

    ghost faults = { λ s _. s.faults };

    /// Reads as many bytes as the system gives at once, at most 64 KiB. It counts as one read,
    /// whether it fails or not.
    fn read_at(&mut self, name: &str, at: u64, into: &mut [u8]) -> Result<usize, Failed>
        requires { at ≤ FILE_MAX }
        ensures bound { IfOk result (λ k. k ≤ length into.old) }
        ensures rest { IfOk result (λ k. drop k into.new ≡ drop k into.old) }
        ensures bytes { IfOk result (λ k.
            IfSome None (λ bytes. ReadsAt bytes at k into.old into.new)) }
        ensures later { (other : List ℕ) → self.old.faults ≤ self.new.faults }
        ensures failed { OnErr result (Rose self.old.faults self.new.faults) }
        ensures read { OnOk result (self.new ≡ after_read self.old) }
        ensures fault { OnErr result (self.new ≡ after_fault self.old) }
    {
        self.reads = self.reads.saturating_add(1);
        match self.read_some(name, at, into) {
            Ok(count) => Ok(count),
            Err(_) => {
                self.file = None;
                self.faults = self.faults.saturating_add(1);
                Err(Failed)
            }
        }
    }

    /// The size that the system tells of it. Nothing is opened.
    fn size_hint(&self, name: &str) -> u64 {
        match fs::metadata(self.runtime, name) {
            Ok(found) => found.len(),
            Err(_) => 0,
        }
    }
}

#[cfg(test)]
mod tests {
    use super::*;
    use std::test::Fail;
    use sym_base::{ReadErr, read_all};

    #[test]
    fn files_of_the_disk_are_read_from_any_place_and_an_absent_one_fails(
        rt: HostRuntime,
    ) -> Result<(), Fail> {
        let mut long = Vec::new(rt.alloc());
        for place in 0..200_000u64 {
            long.push((place % 251) as u8)?;
        }
        fs::write(&rt, "long", long.as_slice())?;
        fs::write(&rt, "short", "short file")?;
        let mut store = DiskStore::new(rt.alloc(), &rt)?;
        assert_eq!(rt; store.size_hint("long"), 200_000);
        assert_eq!(rt; store.size_hint("short"), 10);
        assert_eq!(rt; store.size_hint("absent"), 0);
        assert_eq!(rt; store.reads, 0);

        assert!(rt; read_all(rt.alloc(), &mut store, "long", 200_000)? == long);
        let short = read_all(rt.alloc(), &mut store, "short", 200_000)?;
        assert_eq!(rt; short.as_slice(), b"short file".as_slice());

        let before = store.reads;
        let mut piece = [0u8; 4];
        assert_eq!(rt; store.read_at("short", 6, &mut piece), Ok(4));
        assert_eq!(rt; piece, *b"file");
        assert_eq!(rt; store.read_at("long", 251, &mut piece), Ok(4));
        assert_eq!(rt; piece, [0, 1, 2, 3]);
        assert_eq!(rt; store.read_at("long", 200_000, &mut piece), Ok(0));
        assert_eq!(rt; store.reads, before.saturating_add(3));
        assert_eq!(rt; store.faults, 0);

        let absent = read_all(rt.alloc(), &mut store, "absent", 200_000);
        assert_eq!(rt; absent.err(), Some(ReadErr::Failed));
        assert_eq!(rt; store.reads, before.saturating_add(4));
        assert_eq!(rt; store.faults, 1);
        assert!(rt; read_all(rt.alloc(), &mut store, "long", 200_000)? == long);
        assert_eq!(rt; store.faults, 1);

        fs::remove_file(&rt, "long")?;
        fs::remove_file(&rt, "short")?;
        Ok(())
    }
}
