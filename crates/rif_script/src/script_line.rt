ghost use Rattle.std.specs.Prelude.{◌≡◌, IfOk, IfSome, IsUtf8, Ok, map, option_map};
ghost use Rattle.std.specs.List.{list_all};
ghost use Rattle.rif_lex.specs.Lexing.{lexed};
ghost use Rattle.rif_lex.specs.Spelling.{written};
ghost use Rattle.rif_script.specs.Jobs.{is_client_character, is_client_name, is_comment};
ghost use Rattle.rif_script.specs.ReadingItems.{given_from, name_of, sent_from, word_text};
ghost use Rattle.rif_script.specs.ReadingLines.{line_at};
ghost use Rattle.rif_script.specs.SentLeaves.{Gives};
ghost use Rattle.rif_script.specs.SentLines.{Finds, HasText, line_view};

use crate::items::read_item;
use crate::line_fault::LineFault;
use crate::sent_tokens::SentTokens;
use prd_reader::{Prefixes, TextPool, text_of};
use rif_lex::{Kind, Token, tokens_into};
use rif_refusals::Fault;
use rif_refusals::limits::MOST_NAME_CHARACTERS;
use rif_values::OutOfMemory;
use session_states::Item;

/// What a line of a script is.
#[derive(Drop)]
pub enum Line<'a> {
    /// White space, or a comment.
    Skipped,
    /// A client's name as it stands in the line, and the item that it sends.
    Sent(&'a [u8], Item),
}

/// What a line is, with or without its line feed, or nothing where it has none of the forms. Its tokens
/// are put into the list, whose room is used again, and the pool makes the texts of its item. The cost is the
/// line's length.
///
/// Source: our own (docs/FORMATS.md, "Jobs").
pub fn read_line<'a>(
    pool: &mut TextPool,
    found: &mut Vec<Token>,
    prefixes: &Prefixes,
    line: &'a [u8],
) -> Result<Option<Line<'a>>, OutOfMemory>
    ensures is { IfOk result (λ given. option_map line_view given ≡ line_at prefixes.now line.now) }
    ensures text { IfOk result (λ given. IfSome given HasText) }
{
    match line_in(pool, found, prefixes, line) {
        Ok(given) => Ok(Some(given)),
        Err(LineFault::Bad) => Ok(None),
        Err(LineFault::OutOfMemory) => Err(OutOfMemory),
    }
}

#[tactic(auto, unfolding(crate::specs::ReadingLines::line_at))]
fn line_in<'a>(
    pool: &mut TextPool,
    found: &mut Vec<Token>,
    prefixes: &Prefixes,
    line: &'a [u8],
) -> Result<Line<'a>, LineFault>
    ensures is { Gives line_view result (line_at prefixes.now line.now) }
    ensures text { IfOk result HasText }
{
    if is_comment(line) {
        return Ok(Line::Skipped);
    }
    find_tokens(found, line)?;
    line_of(pool, prefixes, line, found.as_slice())
}

fn is_comment(line: &[u8]) -> bool
    ensures { result ≡ is_comment line.now }
{
    match line.first() {
        Some(byte) => *byte == b'#',
        None => false,
    }
}

// Puts the tokens of a line into the list, if it has tokens.
fn find_tokens(found: &mut Vec<Token>, line: &[u8]) -> Result<(), LineFault>
    ensures { Finds result found.new.items (lexed line.now) }
{
    match tokens_into(found, line) {
        Ok(()) => Ok(()),
        Err(Fault::Refused(_)) => Err(LineFault::Bad),
        Err(Fault::OutOfMemory) => Err(LineFault::OutOfMemory),
    }
}

// What the tokens of a line are.
fn line_of<'a>(
    pool: &mut TextPool,
    prefixes: &Prefixes,
    line: &'a [u8],
    tokens: &[Token],
) -> Result<Line<'a>, LineFault>
    requires { lexed line.now ≡ Ok tokens.now }
    ensures is { Gives line_view result (given_from prefixes.now (map (written line.now) tokens.now)) }
    ensures text { IfOk result HasText }
{
    if tokens.is_empty() {
        return Ok(Line::Skipped);
    }
    let (name, item) = read_sent(pool, prefixes, line, tokens)?;
    Ok(Line::Sent(name, item))
}

// A client's name, and the item that it sends.
#[tactic(auto, unfolding(crate::specs::ReadingItems::sent_from))]
fn read_sent<'a>(
    pool: &mut TextPool,
    prefixes: &Prefixes,
    line: &'a [u8],
    tokens: &[Token],
) -> Result<(&'a [u8], Item), LineFault>
    requires { lexed line.now ≡ Ok tokens.now }
    ensures is { Gives (λ sent. (sent.0.now, sent.1)) result
        (sent_from prefixes.now (map (written line.now) tokens.now)) }
    ensures text { IfOk result (λ sent. IsUtf8 sent.0.now) }
{
    if tokens.len() < 2 {
        return Err(LineFault::Bad);
    }
    let name = name_of(line, tokens[0])?;
    let word = word_text(line, tokens[1])?;
    let item = read_item(pool, word, SentTokens::new(prefixes, line, tokens, 2))?;
    Ok((name, item))
}

// The client's name that a token is: a word of lowercase letters, digits and underscores.
#[tactic(auto, unfolding(crate::specs::ReadingItems::name_of))]
fn name_of(line: &[u8], token: Token) -> Result<&[u8], LineFault>
    ensures is { Gives (λ name. name.now) result (name_of (written line.now token)) }
    ensures text { IfOk result (λ name. IsUtf8 name.now) }
{
    let text = word_text(line, token)?;
    if !is_client_name(text) {
        return Err(LineFault::Bad);
    }
    Ok(text)
}

fn is_client_name(text: &[u8]) -> bool
    ensures { result ≡ is_client_name text.now }
{
    text.len() <= MOST_NAME_CHARACTERS && are_client_characters(text)
}

fn are_client_characters(text: &[u8]) -> bool
    ensures { result ≡ list_all is_client_character text.now }
{
    text.iter().all(|byte| is_client_character(*byte))
}

fn is_client_character(byte: u8) -> bool
    ensures { result ≡ is_client_character byte }
{
    matches!(byte, b'a'..=b'z' | b'0'..=b'9' | b'_')
}

// The text of a word.
fn word_text(line: &[u8], token: Token) -> Result<&[u8], LineFault>
    ensures { Gives (λ text. text.now) result (word_text (written line.now token)) }
{
    match token.kind {
        Kind::Word => Ok(text_of(line, token)),
        _ => Err(LineFault::Bad),
    }
}
