//! Constants and facts as text.
use super::written::WrittenConst::{Bool, Fresh, Int, Iri, Local, Str};
use super::written::WrittenFact::{Atom, Frame, Member};
use super::written::{WrittenConst, WrittenFact};
use crate::{OutOfMemory, push_const, push_fact, write_const, write_fact};
use std::alloc::Global;
use std::test::Fail;

static CONSTS: &[(WrittenConst, &str)] = &[
    (Int(0), "0"),
    (Int(-1), "-1"),
    (Int(120), "120"),
    (Int(i64::MAX), "9223372036854775807"),
    (Int(i64::MIN), "-9223372036854775808"),
    (Bool(true), "true"),
    (Bool(false), "false"),
    (Str(""), "\"\""),
    (Str("a\"b\\c\nd\te\rf"), "\"a\\\"b\\\\c\\nd\\te\\rf\""),
    (Str("\0ä漢"), "\"\0ä漢\""),
    (Iri("http://e/#a"), "<http://e/#a>"),
    (Local("a-b"), "_a-b"),
    (Fresh(0), "@0"),
    (Fresh(u64::MAX), "@18446744073709551615"),
];

static FACTS: &[(WrittenFact, &str)] = &[
    (Atom(Local("p"), &[]), "_p()"),
    (Atom(Iri("http://e/p"), &[Int(-1)]), "<http://e/p>(-1)"),
    (
        Atom(Local("p"), &[Str("a b"), Bool(true), Fresh(3)]),
        "_p(\"a b\" true @3)",
    ),
    (Frame(Local("o"), Local("s"), Int(-5)), "_o[_s->-5]"),
    (Frame(Fresh(1), Iri("s"), Str("]")), "@1[<s>->\"]\"]"),
    (Member(Local("o"), Local("C")), "_o # _C"),
];

// A constant's text twice, by each of the calls, with a bar before each.
fn const_texts(alloc: Global, written: WrittenConst) -> Result<Vec<u8>, OutOfMemory> {
    let value = written.make(alloc)?;
    let mut out = vec![in alloc; b'|']?;
    write_const(alloc, &mut out, &value)?;
    out.push(b'|')?;
    push_const(&mut out, &value)?;
    Ok(out)
}

fn fact_texts(alloc: Global, written: WrittenFact) -> Result<Vec<u8>, OutOfMemory> {
    let fact = written.make(alloc)?;
    let mut out = vec![in alloc; b'|']?;
    write_fact(alloc, &mut out, &fact)?;
    out.push(b'|')?;
    push_fact(&mut out, &fact)?;
    Ok(out)
}

#[test]
fn constants_and_facts_have_their_text(rt: HostRuntime) -> Result<(), Fail> {
    for (value, text) in CONSTS {
        let wanted = format!(in rt.alloc(); "|{text}|{text}")?;
        let found = const_texts(rt.alloc(), *value)?;
        assert!(rt; found.as_slice() == wanted.as_bytes(), "{text}");
    }
    for (fact, text) in FACTS {
        let wanted = format!(in rt.alloc(); "|{text}|{text}")?;
        let found = fact_texts(rt.alloc(), *fact)?;
        assert!(rt; found.as_slice() == wanted.as_bytes(), "{text}");
    }
    Ok(())
}
