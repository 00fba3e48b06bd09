//! A script: the clients and the items that its lines give.
ghost use Rattle.std.specs.Prelude.{◌≡◌, ◌<◌, ◌≤◌, ◌^◌, ◌+◌, ◌++◌, ◌∷◌, [], IfOk, IsUtf8, length};
ghost use Rattle.rif_refusals.specs.Limits.{most_clients};
ghost use Rattle.rif_lex.specs.Lexing.{Answers};
ghost use Rattle.prd_grammar.specs.Values.{place_of};
ghost use Rattle.rif_script.specs.Jobs.{budget_of, lines_of};
ghost use Rattle.rif_script.specs.ReadingLines.{no_lines, with_lines};
ghost use Rattle.rif_script.specs.ScriptSteps.{budgets_with, client_with};

use crate::document_part::first_line;
use crate::script_line::{Line, read_line};
use prd_reader::{Prefixes, TextPool};
use rif_lex::Token;
use rif_refusals::limits::{MOST_BUDGETS, MOST_CLIENTS, MOST_ITEMS};
use rif_refusals::{Fault, Refusal};
use rif_values::{Listed, OutOfMemory, Text};
use session_states::Item;
use std::alloc::Global;

/// What the lines of a script give: the names of its clients, its items with their clients' numbers, and
/// the sum of its budgets.
#[derive(Drop)]
pub struct Script {
    pub names: Listed<Text>,
    pub items: Listed<(u32, Item)>,
    pub budgets: u64,
}

/// The script of a text whose first line has this number, or the refusal of its first faulty line. The
/// cost is the text's length; for a line memory is taken for its item and a new client's name. The room for its
/// tokens is used again, and one pool makes the texts of all lines, so that names which come again share their bytes.
///
/// Source: our own (docs/FORMATS.md, "Jobs").
pub fn read_script(
    alloc: Global,
    prefixes: &Prefixes,
    text: &[u8],
    first: u64,
) -> Result<Script, Fault>
    requires { first + length text.now < 2 ^ 64 }
    ensures { Answers result (with_lines prefixes.now first no_lines (lines_of text.now)) }
{
    let mut script = Script {
        names: Listed::new(alloc),
        items: Listed::new(alloc),
        budgets: 0,
    };
    let mut found = Vec::new(alloc);
    let mut pool = TextPool::new(alloc)?;
    let mut number = first;
    let mut rest = text;
    while !rest.is_empty() {
        let (line, behind) = first_line(rest);
        script = script.with_line(&mut pool, &mut found, prefixes, line, number)?;
        number += 1;
        rest = behind;
    }
    Ok(script)
}

impl Script {
    ghost use Rattle.std.specs.Prelude.{◌≤◌, IfOk, IsUtf8, length};
    ghost use Rattle.rif_refusals.specs.Limits.{most_clients};
    ghost use Rattle.rif_lex.specs.Lexing.{Answers};
    ghost use Rattle.rif_script.specs.ReadingLines.{with_line, with_sent};
    ghost use Rattle.rif_script.specs.ScriptSteps.{room_for, with_room};

    // The script with the line of this number.
    #[tactic(auto, unfolding(crate::specs::ReadingLines::with_line))]
    fn with_line(
        self,
        pool: &mut TextPool,
        found: &mut Vec<Token>,
        prefixes: &Prefixes,
        line: &[u8],
        number: u64,
    ) -> Result<Script, Fault>
        requires { length self.names ≤ most_clients }
        ensures is { Answers result (with_line prefixes.now number self line.now) }
        ensures few { IfOk result (λ script. length script.names ≤ most_clients) }
    {
        match read_line(pool, found, prefixes, line)? {
            None => Err(Fault::Refused(Refusal::BadLine { line: number })),
            Some(Line::Skipped) => Ok(self),
            Some(Line::Sent(name, item)) => self.with_sent(pool.alloc(), name, item, number),
        }
    }

    // The script with a client's item, which the line of this number sends.
    fn with_sent(self, alloc: Global, name: &[u8], item: Item, number: u64) -> Result<Script, Fault>
        requires utf8 { IsUtf8 name.now }
        requires few { length self.names ≤ most_clients }
        ensures is { Answers result (with_sent number self (name.now, item)) }
        ensures few { IfOk result (λ script. length script.names ≤ most_clients) }
    {
        let budgets = self.room_for(&item, number)?;
        self.with_room(alloc, name, item, budgets, number)
    }

    // The sum of the budgets with an item, where there is room for it.
    fn room_for(&self, item: &Item, number: u64) -> Result<u64, Fault>
        ensures { Answers result (room_for number self.now item.now) }
    {
        let budgets = budgets_with(self.budgets, item, number)?;
        if self.items.len() as u64 >= MOST_ITEMS {
            return Err(Fault::Refused(Refusal::TooManyItems { line: number }));
        }
        Ok(budgets)
    }

    // The script with a client's item that there is room for, and this sum of budgets.
    fn with_room(
        self,
        alloc: Global,
        name: &[u8],
        item: Item,
        budgets: u64,
        number: u64,
    ) -> Result<Script, Fault>
        requires utf8 { IsUtf8 name.now }
        requires few { length self.names ≤ most_clients }
        ensures is { Answers result (with_room number self (name.now, item) budgets) }
        ensures few { IfOk result (λ script. length script.names ≤ most_clients) }
    {
        let Script { names, items, .. } = self;
        let (client, names) = client_with(alloc, names, name, number)?;
        let items = items_with(items, client, item)?;
        Ok(Script {
            names,
            items,
            budgets,
        })
    }
}

// The items with one more, of the client of the number.
fn items_with(
    mut items: Listed<(u32, Item)>,
    client: u32,
    item: Item,
) -> Result<Listed<(u32, Item)>, OutOfMemory>
    ensures { IfOk result (λ more. more ≡ items ++ (client, item) ∷ []) }
{
    items.push((client, item))?;
    Ok(items)
}

// The sum of the budgets with that of an item, which the line of this number sends.
fn budgets_with(before: u64, item: &Item, number: u64) -> Result<u64, Fault>
    ensures { Answers result (budgets_with number (before + budget_of item.now)) }
{
    match before.checked_add(budget_of(item)) {
        Some(sum) if sum <= MOST_BUDGETS => Ok(sum),
        _ => Err(Fault::Refused(Refusal::BudgetTooLarge { line: number })),
    }
}

// The number of the client of this name, that of its first line or the next one, and the names with it.
fn client_with(
    alloc: Global,
    mut names: Listed<Text>,
    name: &[u8],
    number: u64,
) -> Result<(u32, Listed<Text>), Fault>
    requires utf8 { IsUtf8 name.now }
    requires few { length names ≤ most_clients }
    ensures is { Answers result (client_with number names name.now) }
    ensures few { IfOk result (λ found. length found.1 ≤ most_clients) }
{
    let place = place_of(names.as_slice(), name);
    if place < names.len() {
        return Ok((place as u32, names));
    }
    if place as u64 >= MOST_CLIENTS {
        return Err(Fault::Refused(Refusal::TooManyClients { line: number }));
    }
    names.push(Text::from_bytes(alloc, name)?)?;
    Ok((place as u32, names))
}

// An item's budget, and 0 where it has none.
fn budget_of(item: &Item) -> u64
    ensures { result ≡ budget_of item.now }
{
    match item {
        Item::Fire(budget) | Item::Until(budget) => *budget,
        Item::Change(_) | Item::Halt | Item::Dispose => 0,
    }
}

// The place of a name among some, counted from 0, or their number where it isn't one of them.
fn place_of(names: &[Text], name: &[u8]) -> usize
    ensures is { result ≡ place_of names.now name.now }
    ensures within { result ≤ length names.now }
{
    let mut place = 0;
    while place < names.len() && names[place].bytes() != name {
        place += 1;
    }
    place
}
