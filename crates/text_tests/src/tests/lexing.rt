//! What texts lead to: their tokens, or the refusal that stands first.
use super::tokens::{LINES, NAMES, NUMBERS, SHORTEST, SIGNS, STRINGS, WHITE};
use super::utf8::{BROKEN, WHOLE};
use rif_lex::tokens;
use rif_refusals::limits::MOST_INPUT_BYTES;
use rif_refusals::{Fault, Refusal};
use std::alloc::{AllocError, Global};
use std::process::Abort;
use std::test::Fail;

/// What the bytes lead to, in the words of the tables.
fn shown(alloc: Global, bytes: &[u8]) -> Result<String, AllocError> {
    let mut text = String::new(alloc);
    match tokens(alloc, bytes) {
        Ok(found) => {
            for token in found.as_slice() {
                let kind = token.kind;
                let (line, col) = (token.line, token.col);
                let (start, end) = (token.start, token.end);
                write!(text, "{kind:?} {line}:{col} {start}..{end};")?;
            }
        }
        Err(Fault::Refused(Refusal::BadToken { line, col })) => write!(text, "bad {line}:{col}")?,
        Err(Fault::Refused(Refusal::NotUtf8 { at })) => write!(text, "broken {at}")?,
        Err(Fault::Refused(Refusal::InputTooLong)) => text.push_str("too long")?,
        Err(fault) => write!(text, "{fault}")?,
    }
    Ok(text)
}

/// Asserts that each text leads to what stands beside it.
fn compare(rt: &impl Abort, alloc: Global, rows: &[(&str, &str)]) -> Result<(), AllocError> {
    for (text, wanted) in rows {
        let found = shown(alloc, text.as_bytes())?;
        assert_eq!(rt; found.as_str(), *wanted, "{text}");
    }
    Ok(())
}

#[test]
fn each_token_at_its_shortest_and_at_its_edges(rt: HostRuntime) -> Result<(), Fail> {
    for rows in [SHORTEST, NAMES, NUMBERS, STRINGS, SIGNS] {
        compare(&rt, rt.alloc(), rows)?;
    }
    Ok(())
}

#[test]
fn white_space_and_places(rt: HostRuntime) -> Result<(), Fail> {
    for rows in [WHITE, LINES, WHOLE] {
        compare(&rt, rt.alloc(), rows)?;
    }
    Ok(())
}

#[test]
fn the_first_broken_character_is_named(rt: HostRuntime) -> Result<(), Fail> {
    for (bytes, at) in BROKEN {
        let found = shown(rt.alloc(), bytes)?;
        let wanted = format!(in rt.alloc(); "broken {at}")?;
        assert_eq!(rt; found.as_str(), wanted.as_str(), "{bytes:?}");
    }
    Ok(())
}

/// Asserts what so many bytes of one kind lead to.
fn fills(
    rt: &impl Abort,
    alloc: Global,
    byte: u8,
    count: usize,
    wanted: &str,
) -> Result<(), AllocError> {
    let bytes = vec![in alloc; byte; count]?;
    let found = shown(alloc, bytes.as_slice())?;
    assert_eq!(rt; found.as_str(), wanted, "{count} times {byte}");
    Ok(())
}

#[test]
fn too_long_comes_before_broken_and_broken_before_a_bad_token(rt: HostRuntime) -> Result<(), Fail> {
    let most = MOST_INPUT_BYTES;
    fills(&rt, rt.alloc(), b' ', most, "")?;
    fills(&rt, rt.alloc(), b' ', most + 1, "too long")?;
    fills(&rt, rt.alloc(), b'%', most, "bad 1:1")?;
    fills(&rt, rt.alloc(), b'%', most + 1, "too long")?;
    fills(&rt, rt.alloc(), 0xff, most, "broken 0")?;
    fills(&rt, rt.alloc(), 0xff, most + 1, "too long")?;
    Ok(())
}
