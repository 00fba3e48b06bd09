//! The lines of scripts, and the items that they stand for.
use crate::outcome::{is_read, is_refused};
use std::alloc::{AllocError, Global};
use std::test::Fail;

/// Lines that stand for themselves, with a client's name.
static FORMS: &[&str] = &[
    "a assert _p()",
    "a assert _p(1 _q)",
    "a assert _o[_s->1]",
    "a assert _o # _c",
    "a retract _p(1)",
    "a retract _o[_s->1]",
    "a retract _o # _c",
    "a retract _o _s",
    "a retract _o",
    "a modify _o[_s->1]",
    "a fire 0",
    "a until 5",
    "a halt",
    "a dispose",
    // each form of constant
    "a assert _p(-5 0)",
    "a assert _p(9223372036854775807 -9223372036854775808)",
    "a assert _p(true false)",
    "a assert <p>(<http://e/a> <>)",
    "a assert _ä(\"€\")",
    "a assert 5[true->\"v\"]",
    "a retract \"o\" # -1",
    "a retract false \"s\"",
];

/// A line, and the same with its constants in full.
static CONSTANTS: &[(&str, &str)] = &[
    (
        "a assert _p(\"\" \"a\\\"b\\\\c\\n\\t\\r\" \"\t\")",
        "a assert _p(\"\" \"a\\\"b\\\\c\\n\\t\\r\" \"\\t\")",
    ),
    (
        "a assert ex:p(ex: ex:b)",
        "a assert <http://e/p>(<http://e/> <http://e/b>)",
    ),
    (
        "a retract xs:string",
        "a retract <http://www.w3.org/2001/XMLSchema#string>",
    ),
    (
        "a assert _p(\"+07\"^^xs:integer \"-0\"^^xs:integer)",
        "a assert _p(7 0)",
    ),
    (
        "a assert _p(\"5\"^^<http://www.w3.org/2001/XMLSchema#integer>)",
        "a assert _p(5)",
    ),
    (
        "a assert _p(\"1\"^^xs:boolean \"false\"^^xs:boolean)",
        "a assert _p(true false)",
    ),
    (
        "a modify _o[_s->\"1\"^^xs:string]",
        "a modify _o[_s->\"1\"]",
    ),
    (
        "a assert \"p\"^^rif:iri(\"q\"^^rif:local)",
        "a assert <p>(_q)",
    ),
    (
        "a assert \"p\"^^rif:local(\"\"^^rif:iri)",
        "a assert _p(<>)",
    ),
];

/// A script, and the lines of its items.
static LAYOUTS: &[(&str, &str)] = &[
    ("\n \t\n\r\n(* n *)\n (**) (* a halt *)\t\n# a jump\n#", ""),
    ("a halt\r\nb halt\r", "left a halt\nleft b halt\n"),
    ("  a\tassert (* n *) _p ( 1 ) \n", "left a assert _p(1)\n"),
    ("(* n *)a(**)halt(**)", "left a halt\n"),
    (
        "a assert _o#_c\na assert _o[_s->-1]",
        "left a assert _o # _c\nleft a assert _o[_s->-1]\n",
    ),
    (
        "b halt\n\na halt\n#\nb halt\n",
        "left b halt\nleft a halt\nleft b halt\n",
    ),
    (
        "that fire 1\ntrue halt\nassert assert _p()\nhalt halt\na_1 halt",
        "left that fire 1\nleft true halt\nleft assert assert _p()\nleft halt halt\nleft a_1 halt\n",
    ),
];

/// Lines that are no items.
static BAD: &[&str] = &[
    "a",
    "halt",
    "a jump",
    "a halt 1",
    "a dispose now",
    "A halt",
    "aB halt",
    "_a halt",
    "ä halt",
    "a-b halt",
    "a:b halt",
    "1 halt",
    " # a halt",
    "%%",
    "(* a halt",
    "a assert",
    "a assert _p",
    "a assert 5(1)",
    "a assert ?x(1)",
    "a assert _p(?x)",
    "a assert _p(1",
    "a assert _p(1) _q",
    "a assert _o[_s->1",
    "a assert _o[]",
    "a assert _o[_s->1 _t->2]",
    "a assert _o #",
    "a assert _o # _c _d",
    "a assert _o ## _c",
    "a assert _a = _b",
    "a assert And(1)",
    "a assert External(func:not(true))",
    "a assert zz:p(1)",
    "a assert _p(9223372036854775808)",
    "a assert _p(\"-9223372036854775809\"^^xs:integer)",
    "a assert _p(\"five\"^^xs:integer)",
    "a assert _p(\"\"^^rif:local)",
    "a assert _p(\"1\"^^xs:decimal)",
    "a assert _p(05)",
    "a assert _p(\"a",
    "a retract",
    "a retract _p(1) _q",
    "a retract _o _s _v",
    "a modify _p(1)",
    "a modify _o # _c",
    "a modify _o[_s->1 _t->2]",
    "a fire",
    "a fire -1",
    "a fire 1 2",
    "a fire \"1\"^^xs:integer",
    "a fire 9223372036854775808",
    "a until _x",
];

// The job of a script and a document of one line, which declares the prefix `ex`.
fn job_with(alloc: Global, script: &str) -> Result<String, AllocError> {
    format!(in alloc; "Document(Prefix(ex <http://e/>))\n%%\n{script}")
}

#[test]
fn each_form_of_a_line_is_its_item(rt: HostRuntime) -> Result<(), Fail> {
    let alloc = rt.alloc();
    for line in FORMS {
        let item = format!(in alloc; "left {line}\n")?;
        is_read(&rt, alloc, job_with(alloc, line)?.as_str(), item.as_str())?;
    }
    for (line, item) in CONSTANTS {
        let item = format!(in alloc; "left {item}\n")?;
        is_read(&rt, alloc, job_with(alloc, line)?.as_str(), item.as_str())?;
    }
    Ok(())
}

#[test]
fn white_space_names_and_comments_of_a_script(rt: HostRuntime) -> Result<(), Fail> {
    let alloc = rt.alloc();
    for (script, lines) in LAYOUTS {
        is_read(&rt, alloc, job_with(alloc, script)?.as_str(), lines)?;
    }
    Ok(())
}

#[test]
fn a_line_that_is_no_item_is_refused(rt: HostRuntime) -> Result<(), Fail> {
    let alloc = rt.alloc();
    for line in BAD {
        is_refused(&rt, alloc, job_with(alloc, line)?.as_str(), "17 line 3")?;
    }
    Ok(())
}
