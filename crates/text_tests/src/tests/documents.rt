//! Documents: those that are refused, each at its place, and what is read of the others.
use crate::outcome::is_refused;
use prd_reader::{read_doc, read_parts, write_doc};
use rif_lex::tokens;
use rif_refusals::Fault;
use rif_tree::Doc;
use std::alloc::Global;
use std::test::Fail;

/// A document, and its refusal.
static DOCUMENTS: &[(&str, &str)] = &[
    ("", "4 line 1 col 1"),
    ("Document", "4 line 1 col 9"),
    ("document()", "4 line 1 col 1"),
    ("Document(", "4 line 1 col 10"),
    ("Document(\n", "4 line 2 col 1"),
    ("Document())", "4 line 1 col 11"),
    ("Document() Document()", "4 line 1 col 12"),
    ("Document(Group() Group())", "4 line 1 col 18"),
    ("Document(Group() Prefix(e <http://e/>))", "4 line 1 col 18"),
    ("Document(Prefix(e xs:e))", "4 line 1 col 19"),
    (
        "Document(Group 1 rif:forwardChaining ())",
        "4 line 1 col 18",
    ),
    ("Document(Group 1 2 ())", "4 line 1 col 18"),
    (
        "Document(Group(Forall (If _p() Then Do(Assert(_q())))))",
        "4 line 1 col 23",
    ),
    (
        "Document(Group(Forall ?x such that (Do(Assert(_q())))))",
        "4 line 1 col 37",
    ),
    (
        "Document(Group(If _p() Do(Assert(_q()))))",
        "4 line 1 col 24",
    ),
    (
        "Document(Group(If _p() Then Assert(_q())))",
        "4 line 1 col 29",
    ),
    ("Document(Group 9223372036854775808 ())", "6 line 1 col 16"),
    (
        "Document(Group(Do(Assert(e:p(1)))) Prefix(e <http://e/>))",
        "7 line 1 col 26",
    ),
    ("Document(Import(<http://e/>))", "8 line 1 col 10"),
    (
        "Document(Prefix(xs <http://e/>) Group(Do(Assert(_p(\"1\"^^xs:integer)))))",
        "8 line 1 col 57",
    ),
    (
        "Document(Group rif:backwardChaining ())",
        "11 line 1 col 16",
    ),
    ("Document(Group e:s ())", "7 line 1 col 16"),
    ("Document(Group 10001())", "12 line 1 col 16"),
    ("Document(Group -10001())", "12 line 1 col 16"),
    ("Document(\n  Group(ä))", "4 line 2 col 9"),
];

/// What stands in `Do()`, and the refusal of the document.
static BLOCKS: &[(&str, &str)] = &[
    ("", "4 line 1 col 19"),
    ("(?x New())", "4 line 1 col 29"),
    ("(?x _o[_s->?y]) Assert(_q())", "4 line 1 col 30"),
    ("Assert(_q()) (?x New())", "4 line 1 col 32"),
    ("Assert(5(1))", "4 line 1 col 27"),
    ("Assert(_a = _b)", "4 line 1 col 29"),
    ("Assert(_o[])", "4 line 1 col 29"),
    ("Retract(_o _s _v)", "4 line 1 col 33"),
    ("Modify(_o # _c)", "4 line 1 col 29"),
    ("Assert(_p(\"five\"^^xs:integer))", "4 line 1 col 29"),
    ("Assert(_p(\"\"^^rif:local))", "4 line 1 col 29"),
    ("Assert(_p(\"a b\"^^rif:iri))", "4 line 1 col 29"),
    ("Assert(_p(\"TRUE\"^^xs:boolean))", "4 line 1 col 29"),
    ("Assert(_p(9223372036854775808))", "6 line 1 col 29"),
    ("Assert(_p(-9223372036854775809))", "6 line 1 col 29"),
    (
        "Assert(_p(\"-09223372036854775809\"^^xs:integer))",
        "6 line 1 col 29",
    ),
    ("Assert(e:p(1))", "7 line 1 col 26"),
    ("Assert(_p(\"1\"^^xs:decimal))", "8 line 1 col 34"),
    ("Assert(_p(\"1\"^^t:int))", "8 line 1 col 34"),
    ("Assert(_ää(1) 5)", "4 line 1 col 33"),
];

/// A condition, and the refusal of the document.
static CONDITIONS: &[(&str, &str)] = &[
    ("?x(1)", "4 line 1 col 35"),
    ("Not()", "4 line 1 col 37"),
    ("Exists (_p())", "4 line 1 col 40"),
    (
        "?x = External(pred:contains(\"a\" \"b\"))",
        "4 line 1 col 47",
    ),
    ("External(func:numeric-add(1 2))", "4 line 1 col 65"),
    ("_C ## _D", "8 line 1 col 36"),
    ("?x = List(1 2)", "8 line 1 col 38"),
    ("External(pred:numeric-more(1 2))", "9 line 1 col 42"),
    ("External(<http://e/>(1 2))", "9 line 1 col 42"),
    ("External(e:p(1 2))", "7 line 1 col 42"),
    ("External(pred:contains(\"a\"))", "10 line 1 col 59"),
    ("?x = External(func:not(true false))", "10 line 1 col 66"),
];

#[test]
fn each_mistake_is_refused_at_its_place(rt: HostRuntime) -> Result<(), Fail> {
    let alloc = rt.alloc();
    for (document, wanted) in DOCUMENTS {
        is_refused(&rt, alloc, document, wanted)?;
    }
    for (block, wanted) in BLOCKS {
        let document = format!(in alloc; "Document(Group(Do({block})))")?;
        is_refused(&rt, alloc, document.as_str(), wanted)?;
    }
    for (condition, wanted) in CONDITIONS {
        let document = format!(in alloc;
            "Document(Group(Forall ?x ?y (If {condition} Then Do(Assert(?x # _D)))))"
        )?;
        is_refused(&rt, alloc, document.as_str(), wanted)?;
    }
    Ok(())
}

/// A document, and its canonical text.
static CANONICAL: &[(&str, &str)] = &[
    ("Document(Group 3())", "Document()\n"),
    (
        "Document(Group rif:forwardChaining 5 (Group (Do(Assert(_a()))) Group -7 (Do(Assert(_b()))) \
         Do(Assert(_c()))))",
        "Document(Group(\nGroup 5(Do(Assert(_a())))\nGroup -7(Do(Assert(_b())))\nGroup 5(Do(Assert(_c())))\n))\n",
    ),
    // each kind of constant, and those with a text twice
    (
        "Document(Prefix(e <http://e/>) Prefix(e <http://f/>) Group(Do(Assert(e:p(e: <x> \"a\\\"b\\n\"^^xs:string \
         true \
         \"0\"^^xs:boolean \"l\"^^rif:local \"i\"^^rif:iri -5 \"05\"^^xs:integer e: <x> \"a\\\"b\\n\" _l <i> \
         \"€\" rif:local)))))",
        "Document(Group(\nGroup 0(Do(Assert(<http://f/p>(<http://f/> <x> \"a\\\"b\\n\" true \
         false _l <i> -5 5 <http://f/> <x> \"a\\\"b\\n\" _l <i> \
         \"€\" <http://www.w3.org/2007/rif#local>))))\n))\n",
    ),
];

#[test]
fn what_is_read_is_written_in_canonical_text(rt: HostRuntime) -> Result<(), Fail> {
    let alloc = rt.alloc();
    for (text, wanted) in CANONICAL {
        let doc = read(alloc, text)?;
        let mut written = Vec::new(alloc);
        write_doc(alloc, &mut written, &doc)?;
        assert_eq!(rt; str::from_utf8(written.as_slice())?, *wanted, "{text}");
    }
    Ok(())
}

fn read(alloc: Global, text: &str) -> Result<Doc, Fault> {
    let found = tokens(alloc, text.as_bytes())?;
    read_doc(alloc, &found, text.as_bytes())
}

/// A document, and the prefixes that it declares with their IRIs: a prefix that is declared again keeps its place,
/// and has its last IRI.
static PREFIXES: &[(&str, &str)] = &[
    ("Document(Group())", ""),
    (
        "Document(Prefix(b <http://b/>) Prefix(a <http://a/>) Prefix(b <http://c/>))",
        "b http://c/\na http://a/\n",
    ),
    (
        "Document(Prefix(xs <http://x/>) Prefix(Group <http://g/>))",
        "xs http://x/\nGroup http://g/\n",
    ),
];

#[test]
fn prefixes_stand_in_the_order_of_their_first_declarations(rt: HostRuntime) -> Result<(), Fail> {
    for (text, wanted) in PREFIXES {
        let lines = prefix_lines(rt.alloc(), text)?;
        assert_eq!(rt; lines.as_str(), *wanted, "{text}");
    }
    Ok(())
}

// A line for each prefix of the document that a text is.
fn prefix_lines(alloc: Global, text: &str) -> Result<String, Fault> {
    let found = tokens(alloc, text.as_bytes())?;
    let (_, prefixes) = read_parts(alloc, &found, text.as_bytes())?;
    let mut lines = String::new(alloc);
    for (name, iri) in prefixes.iter() {
        write!(lines, "{name} {iri}\n")?;
    }
    Ok(lines)
}
