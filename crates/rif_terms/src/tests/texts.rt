//! Texts, which are names, keys and may be sent.
use crate::{OutOfMemory, Text};
use std::alloc::Global;
use std::collections::HashSet;
use std::test::Fail;

/// Texts, and how each is shown with escapes.
static TEXTS: &[(&str, &str)] = &[
    ("", "\"\""),
    ("aä漢𝔸", "\"aä漢𝔸\""),
    ("a \"b\"\n", "\"a \\\"b\\\"\\n\""),
];

// A copy of a text that is gone.
fn copied(alloc: Global, written: &str) -> Result<Text, OutOfMemory> {
    let text = Text::from_str(alloc, written)?;
    text.copy()
}

/// The value, which is taken only where another thread may have it.
pub fn sent<T: Send>(value: T) -> T {
    value
}

#[test]
fn a_text_has_its_bytes(rt: HostRuntime) -> Result<(), Fail> {
    let mut names = HashSet::new(rt.alloc());
    for (written, escaped) in TEXTS {
        let text = Text::from_bytes(rt.alloc(), written.as_bytes())?;
        let copy = copied(rt.alloc(), written)?;
        assert_eq!(rt;
            (text.as_str(), copy.bytes()),
            (*written, written.as_bytes())
        );
        let shown = format!(in rt.alloc(); "{text}, {text:?}")?;
        let wanted = format!(in rt.alloc(); "{written}, {escaped}")?;
        assert_eq!(rt; shown.as_str(), wanted.as_str());
        let _ = names.insert(sent(text))?;
        assert!(rt; names.contains(&copy));
    }
    assert!(rt; !names.contains(&copied(rt.alloc(), "b")?));
    Ok(())
}
