//! Refusals and faults: their numbers, texts and copies.
use crate::{Counted, Fault, OutOfMemory, Refusal, Text};
use std::alloc::Global;
use std::process::Abort;
use std::test::Fail;

static OF_INPUTS: &[(u32, &str)] = &[
    (1, "the input is longer than 4194304 bytes"),
    (2, "the input isn't UTF-8 at byte 7"),
];

static OF_PLACES: &[(u32, &str)] = &[
    (3, "line 3, column 14: no token begins here"),
    (4, "line 3, column 14: something else is expected here"),
    (5, "line 3, column 14: more than 64 brackets are open"),
    (6, "line 3, column 14: the integer is out of range"),
    (7, "line 3, column 14: the prefix isn't declared"),
    (8, "line 3, column 14: this is left out of the profile"),
    (9, "line 3, column 14: there is no such built-in"),
    (
        10,
        "line 3, column 14: the built-in takes another number of arguments",
    ),
    (
        11,
        "line 3, column 14: the strategy isn't rif:forwardChaining",
    ),
    (
        12,
        "line 3, column 14: the priority is outside -10000 to 10000",
    ),
];

static OF_COUNTS: &[(u32, &str)] = &[
    (13, "line 3, column 14: too many rules"),
    (13, "line 3, column 14: too many variables"),
    (13, "line 3, column 14: too many patterns"),
    (13, "line 3, column 14: too many actions"),
];

static OF_VARIABLES: &[(u32, &str)] = &[
    (14, "rule 5: the variable ?x isn't declared"),
    (15, "rule 5: the variable ?x is declared twice"),
    (16, "rule 5: the variable ?x isn't bound"),
];

static OF_SCRIPTS: &[(u32, &str)] = &[
    (17, "line 3: this is no item of a script"),
    (18, "line 3: the budgets are above 1000000 together"),
    (19, "line 3: the script has more than 65536 items"),
    (20, "line 3: the script names more than 16 clients"),
    (21, "rule 5: a condition has more than 64 branches"),
];

fn of_places(alloc: Global) -> Result<Vec<Refusal>, OutOfMemory> {
    let (line, col) = (3, 14);
    Ok(vec![in alloc;
        Refusal::BadToken { line, col },
        Refusal::Expected { line, col },
        Refusal::TooDeep { line, col },
        Refusal::IntRange { line, col },
        Refusal::UnknownPrefix { line, col },
        Refusal::LeftOut { line, col },
        Refusal::UnknownBuiltin { line, col },
        Refusal::Arity { line, col },
        Refusal::BadStrategy { line, col },
        Refusal::PriorityRange { line, col },
    ]?)
}

fn of_counts(alloc: Global) -> Result<Vec<Refusal>, OutOfMemory> {
    let all = [
        Counted::Rules,
        Counted::Variables,
        Counted::Patterns,
        Counted::Actions,
    ];
    let mut made = Vec::new(alloc);
    for what in all {
        made.push(Refusal::TooMany {
            what,
            line: 3,
            col: 14,
        })?;
    }
    Ok(made)
}

fn of_variables(alloc: Global) -> Result<Vec<Refusal>, OutOfMemory> {
    let x = Text::from_str(alloc, "x")?;
    let undeclared = Refusal::Undeclared {
        rule: 5,
        name: x.copy()?,
    };
    let twice = Refusal::DeclaredTwice {
        rule: 5,
        name: x.copy()?,
    };
    let unbound = Refusal::Unsafe { rule: 5, name: x };
    Ok(vec![in alloc; undeclared, twice, unbound]?)
}

fn of_scripts(alloc: Global) -> Result<Vec<Refusal>, OutOfMemory> {
    let line = 3;
    Ok(vec![in alloc;
        Refusal::BadLine { line },
        Refusal::BudgetTooLarge { line },
        Refusal::TooManyItems { line },
        Refusal::TooManyClients { line },
        Refusal::TooManyBranches { rule: 5 },
    ]?)
}

// Asserts that the refusals, and copies of them, have these numbers and texts, one after another.
fn compare(
    rt: &impl Abort,
    alloc: Global,
    refusals: &[Refusal],
    rows: &[(u32, &str)],
) -> Result<(), OutOfMemory> {
    assert_eq!(rt; refusals.len(), rows.len());
    for (refusal, (number, text)) in refusals.iter().zip(rows.iter()) {
        assert_eq!(rt; refusal.number(), *number, "{text}");
        let shown = format!(in alloc; "{}", Fault::Refused(refusal.copy()?))?;
        assert_eq!(rt; shown.as_str(), *text);
        assert!(rt; refusal.copy()? == *refusal, "{text}");
    }
    Ok(())
}

#[test]
fn refusals_have_their_numbers_and_texts(rt: HostRuntime) -> Result<(), Fail> {
    let alloc = rt.alloc();
    let of_inputs = [Refusal::InputTooLong, Refusal::NotUtf8 { at: 7 }];
    compare(&rt, alloc, of_inputs.as_slice(), OF_INPUTS)?;
    compare(&rt, alloc, of_places(alloc)?.as_slice(), OF_PLACES)?;
    compare(&rt, alloc, of_counts(alloc)?.as_slice(), OF_COUNTS)?;
    compare(&rt, alloc, of_variables(alloc)?.as_slice(), OF_VARIABLES)?;
    compare(&rt, alloc, of_scripts(alloc)?.as_slice(), OF_SCRIPTS)?;
    let shown = format!(in alloc; "{OutOfMemory}, {}", Fault::from(OutOfMemory))?;
    assert_eq!(rt; shown.as_str(), "out of memory, out of memory");
    Ok(())
}
