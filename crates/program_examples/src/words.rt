//! Words from outside.
use converge_call::{Setup, WordsFault, words_of};
use heat_value::Text;
use std::alloc::{AllocError, Global};
use std::test::Fail;

// The words as texts.
fn texts(alloc: Global, words: &[&str]) -> Result<Vec<Text>, AllocError> {
    let mut all = Vec::new(alloc);
    for word in words {
        all.push(Text::from_str(alloc, word)?)?;
    }
    Ok(all)
}

// What is set up: how many workers, and over which cloud.
fn told(alloc: Global, setup: &Setup) -> Result<String, AllocError> {
    match &setup.cloud {
        Some(path) => format!(in alloc; "{} {}", setup.workers, path.as_str()),
        None => format!(in alloc; "{}", setup.workers),
    }
}

// What the words ask for.
fn asked(alloc: Global, words: &[&str]) -> Result<String, AllocError> {
    let words = texts(alloc, words)?;
    match words_of(alloc, &words) {
        Ok(mode) => told(alloc, &mode.setup()),
        Err(WordsFault::Usage) => format!(in alloc; "usage"),
        Err(WordsFault::Memory) => Err(AllocError),
    }
}

// Words, and what they ask for.
const WORDS: &[(&[&str], &str)] = &[
    (&["drive"], "1"),
    (&["drive", "--"], "1"),
    (&["drive", "--workers=64"], "64"),
    (&["drive", "--workers", "1", "--"], "1"),
    (&["drive", "--cloud", "a b"], "1 a b"),
    (&["drive", "--cloud=a=b", "--"], "1 a=b"),
    (&["drive", "--cloud", "f", "--workers=2"], "2 f"),
    (&["drive", "--workers", "2", "--cloud", "f", "--"], "2 f"),
    (&[], "usage"),
    (&["serve"], "usage"),
    (&["drive", "--workers"], "usage"),
    (&["drive", "--workers", "65"], "usage"),
    (&["drive", "--workers", "--"], "usage"),
    (&["drive", "--workers", "01"], "usage"),
    (&["drive", "--workers="], "usage"),
    (&["drive", "--workers", "2", "--workers=2"], "usage"),
    (&["drive", "--cloud"], "usage"),
    (&["drive", "--cloud="], "usage"),
    (&["drive", "--cloud", "--"], "usage"),
    (&["drive", "--cloud", "--workers=2"], "usage"),
    (&["drive", "--cloud=-f"], "usage"),
    (&["drive", "--cloud", "f", "--cloud", "f"], "usage"),
    (
        &["drive", "--cloud", "f", "--workers=2", "--cloud=f"],
        "usage",
    ),
    (&["drive", "--clouds=f"], "usage"),
    (&["drive", "--", "--workers=2"], "usage"),
    (&["drive", "--", "--"], "usage"),
    (&["drive", "--", "journal"], "usage"),
    (&["drive", "journal"], "usage"),
];

#[test]
fn words_are_read_whole(rt: HostRuntime) -> Result<(), Fail> {
    for (words, wanted) in WORDS {
        let said = asked(rt.alloc(), words)?;
        assert_eq!(rt; said.as_str(), *wanted, "{:?}", words);
    }
    Ok(())
}
