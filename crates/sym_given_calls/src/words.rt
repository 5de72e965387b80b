//! Arguments.
use std::alloc::Global;
use sym_base::NoMemory;

/// More arguments go last.
pub fn push_words(
    alloc: Global,
    words: &mut Vec<String>,
    given: &[&'static str],
) -> Result<(), NoMemory> {
    'words: for word in given {
        words.push(String::from_str(alloc, word)?)?;
    }
    Ok(())
}

/// The arguments of these words.
pub fn words_of(alloc: Global, given: &[&'static str]) -> Result<Vec<String>, NoMemory> {
    let mut words = Vec::new(alloc);
    push_words(alloc, &mut words, given)?;
    Ok(words)
}
