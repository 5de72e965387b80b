//! Reading from stores and writing to sinks.
use std::alloc::{AllocError, Global};
use std::test::Fail;
use sym_base::{
    FILE_MAX, MemSink, MemStore, ReadErr, Sink, SinkErr, Store, SureSink, SureStore, read_all,
    write_all,
};

// This many bytes, each unlike its neighbours.
fn sample(alloc: Global, count: u64) -> Result<Vec<u8>, AllocError> {
    let mut bytes = Vec::new(alloc);
    for place in 0..count {
        bytes.push((place % 251) as u8)?;
    }
    Ok(bytes)
}

// The place of the first byte of these that isn't that of the sample.
fn first_other(found: &[u8], wanted: &[u8]) -> Option<usize> {
    'bytes: for (place, (byte, other)) in found.iter().zip(wanted.iter()).enumerate() {
        if byte != other {
            return Some(place);
        }
    }
    None
}

#[test]
fn a_file_is_read_whole_up_to_its_limit(rt: HostRuntime) -> Result<(), Fail> {
    for count in [0, 1, 65_535, 65_536, 65_537, 300_000] {
        let bytes = sample(rt.alloc(), count)?;
        let mut store = MemStore::new(rt.alloc());
        store.add(rt.alloc(), "records", bytes.as_slice())?;
        assert!(rt;
            count <= FILE_MAX,
            "found {count}, wanted at most the largest size"
        );
        let read = read_all(rt.alloc(), &mut store, "records", count)?;
        assert_eq!(rt; read.len(), bytes.len(), "{count} bytes");
        assert_eq!(rt; first_other(&read, &bytes), None, "{count} bytes");
        if count > 0 {
            let read = read_all(rt.alloc(), &mut store, "records", count - 1);
            assert_eq!(rt; read.err(), Some(ReadErr::TooLarge), "{count} bytes");
        }
    }
    Ok(())
}

#[test]
fn a_failed_read_is_not_the_end_of_the_file(rt: HostRuntime) -> Result<(), Fail> {
    let bytes = sample(rt.alloc(), 100_000)?;
    for call in [1, 2, 3] {
        let mut store = MemStore::new(rt.alloc());
        store.add(rt.alloc(), "records", bytes.as_slice())?;
        store.fail_at(rt.alloc(), call)?;
        let read = read_all(rt.alloc(), &mut store, "records", 100_000);
        assert_eq!(rt; read.err(), Some(ReadErr::Failed), "read {call}");
        let read = read_all(rt.alloc(), &mut store, "records", 100_000)?;
        assert_eq!(rt; read.len(), bytes.len(), "after read {call}");
        assert_eq!(rt; first_other(&read, &bytes), None, "after read {call}");
    }
    Ok(())
}

#[test]
fn a_file_is_read_whole_by_pieces(rt: HostRuntime) -> Result<(), Fail> {
    for piece in [1, 7, 1_000] {
        let bytes = sample(rt.alloc(), 1_000)?;
        let mut store = MemStore::new(rt.alloc());
        store.add(rt.alloc(), "records", bytes.as_slice())?;
        let mut whole = [0; 2_000];
        assert_eq!(rt; store.read_at("records", 0, &mut whole).ok(), Some(1_000));
        assert!(rt; piece >= 1, "found a piece of {piece}, wanted 1 at least");
        store.set_piece(piece);
        assert_eq!(rt; store.read_at("records", 0, &mut whole).ok(), Some(piece));
        let read = read_all(rt.alloc(), &mut store, "records", 1_000)?;
        assert_eq!(rt; read.len(), bytes.len(), "pieces of {piece}");
        assert_eq!(rt; first_other(&read, &bytes), None, "pieces of {piece}");
    }
    Ok(())
}

#[test]
fn the_size_of_a_file_is_told_before_it_is_read(rt: HostRuntime) -> Result<(), Fail> {
    for count in [0, 1, 300] {
        let bytes = sample(rt.alloc(), count)?;
        let mut store = MemStore::new(rt.alloc());
        store.add(rt.alloc(), "records", bytes.as_slice())?;
        assert_eq!(rt; store.size_hint("records"), count);
        assert_eq!(rt; store.size_hint("others"), 0);
        let mut sure = SureStore::new(rt.alloc());
        sure.add(rt.alloc(), "records", bytes.as_slice())?;
        assert_eq!(rt; sure.size_hint("records"), count);
        assert_eq!(rt; sure.size_hint("others"), 0);
    }
    Ok(())
}

#[test]
fn a_file_that_is_absent_cannot_be_read_and_one_that_is_set_again_is_replaced(
    rt: HostRuntime,
) -> Result<(), Fail> {
    let mut store = MemStore::new(rt.alloc());
    store.add(rt.alloc(), "a", b"first, and longer")?;
    store.add(rt.alloc(), "b", b"other")?;
    store.add(rt.alloc(), "a", b"second")?;
    let absent = read_all(rt.alloc(), &mut store, "c", 20);
    assert_eq!(rt; absent.err(), Some(ReadErr::Failed));
    let read = read_all(rt.alloc(), &mut store, "a", 20)?;
    assert_eq!(rt; read.as_slice(), b"second".as_slice());
    let read = read_all(rt.alloc(), &mut store, "b", 20)?;
    assert_eq!(rt; read.as_slice(), b"other".as_slice());
    Ok(())
}

#[test]
fn all_bytes_are_written_whatever_a_write_takes(rt: HostRuntime) -> Result<(), Fail> {
    for piece in [1, 4, 10, 11] {
        assert!(rt; piece >= 1, "found a piece of {piece}, wanted 1 at least");
        let mut sink = MemSink::new(rt.alloc(), piece);
        assert_eq!(rt; write_all(&mut sink, b"0123456789"), Ok(()));
        assert_eq!(rt; write_all(&mut sink, b""), Ok(()));
        assert_eq!(rt; write_all(&mut sink, b"ab"), Ok(()));
        assert_eq!(rt;
            sink.bytes(),
            b"0123456789ab".as_slice(),
            "pieces of {piece}"
        );
    }
    Ok(())
}

#[test]
fn a_failed_write_leaves_the_bytes_before_it(rt: HostRuntime) -> Result<(), Fail> {
    let mut sink = MemSink::new(rt.alloc(), 4);
    sink.fail_at(rt.alloc(), 3)?;
    assert_eq!(rt; write_all(&mut sink, b"0123456789"), Err(SinkErr::Failed));
    assert_eq!(rt; sink.bytes(), b"01234567".as_slice());
    assert_eq!(rt; write_all(&mut sink, b"ab"), Ok(()));
    assert_eq!(rt; sink.bytes(), b"01234567ab".as_slice());
    Ok(())
}

#[test]
fn an_absent_file_is_empty_and_one_that_is_set_again_is_replaced(
    rt: HostRuntime,
) -> Result<(), Fail> {
    let mut store = SureStore::new(rt.alloc());
    assert_eq!(rt; read_all(rt.alloc(), &mut store, "a", 0)?.len(), 0);
    store.add(rt.alloc(), "a", b"first, and longer")?;
    store.add(rt.alloc(), "b", b"other")?;
    store.add(rt.alloc(), "a", b"second")?;
    let read = read_all(rt.alloc(), &mut store, "a", 20)?;
    assert_eq!(rt; read.as_slice(), b"second".as_slice());
    let read = read_all(rt.alloc(), &mut store, "b", 20)?;
    assert_eq!(rt; read.as_slice(), b"other".as_slice());
    assert_eq!(rt; read_all(rt.alloc(), &mut store, "", 20)?.len(), 0);
    Ok(())
}

#[test]
fn all_bytes_are_taken_at_once(rt: HostRuntime) -> Result<(), Fail> {
    let mut sink = SureSink::new(rt.alloc());
    assert_eq!(rt; sink.write_some(b""), Ok(0));
    assert_eq!(rt; sink.write_some(b"first"), Ok(5));
    assert_eq!(rt; write_all(&mut sink, b", second"), Ok(()));
    assert_eq!(rt; sink.bytes(), b"first, second".as_slice());
    Ok(())
}
