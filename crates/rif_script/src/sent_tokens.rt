ghost use Rattle.std.specs.Prelude.{◌≡◌, ◌≤◌, length, Ok};
ghost use Rattle.rif_lex.specs.Lexing.{lexed};
ghost use Rattle.rif_script.specs.ReadingItems.{is_carets, is_known_type};

use crate::line_fault::LineFault;
use crate::signs::{behind_arrow, behind_close_square};
use prd_reader::{Behind, Leaf, Prefixes, TextPool, leaf_at};
use rif_lex::Token;
use rif_values::OutOfMemory;

/// What is left to read of a line: its tokens from a place on, with the prefixes of the document.
#[derive(Clone, Copy)]
pub struct SentTokens<'a> {
    prefixes: &'a Prefixes,
    bytes: &'a [u8],
    tokens: &'a [Token],
    at: usize,
    ghost lexed: { lexed bytes.now ≡ Ok tokens.now },
    ghost within: { at ≤ length tokens.now },
}

impl<'a> SentTokens<'a> {
    ghost use Rattle.std.specs.Prelude.{◌≡◌, ◌≤◌, ◌↔◌, ◌<◌, ◌∷◌, [], drop, length, map, Ok, IfOk, IsTrue};
    ghost use Rattle.std.specs.Prelude.{MatchOption};
    ghost use Rattle.rif_lex.specs.Lexing.{lexed};
    ghost use Rattle.rif_lex.specs.Spelling.{written};
    ghost use Rattle.prd_grammar.specs.declared.leaf.Leaf.TheVariants.{Carets};
    ghost use Rattle.rif_script.specs.Jobs.{sent_leaves};
    ghost use Rattle.rif_script.specs.ReadingItems.{past_arrow, past_close_square, past_name, past_type};
    ghost use Rattle.prd_leaves.specs.LeafSteps.{front_of};
    ghost use Rattle.rif_script.specs.SentLeaves.{Gives, IsNext, leaves_past, seen};

    /// The tokens of these bytes from a place on, with these prefixes.
    pub fn new(
        prefixes: &'a Prefixes,
        bytes: &'a [u8],
        tokens: &'a [Token],
        at: usize,
    ) -> SentTokens<'a>
        requires lexed { lexed bytes.now ≡ Ok tokens.now }
        requires within { at ≤ length tokens.now }
        ensures { seen result ≡ sent_leaves prefixes.now (map (written bytes.now) (drop at tokens.now)) }
    {
        SentTokens {
            prefixes,
            bytes,
            tokens,
            at,
        }
    }

    /// How many tokens are left.
    pub fn len(self) -> usize
        ensures { result ≡ length (seen self.entry) }
    {
        self.tokens.len() - self.at
    }

    /// Whether none is left.
    pub fn is_empty(self) -> bool
        ensures { IsTrue result ↔ (seen self.entry ≡ []) }
    {
        self.at == self.tokens.len()
    }

    /// The first leaf, and the tokens behind it.
    pub fn first(self, pool: &mut TextPool) -> Result<Option<(Leaf, SentTokens<'a>)>, OutOfMemory>
        ensures { IfOk result (λ found. MatchOption found (seen self.entry ≡ [])
            (λ first. seen self.entry ≡ first.0 ∷ leaves_past (first.0 ∷ []) first.1)) }
    {
        if self.at == self.tokens.len() {
            return Ok(None);
        }
        Ok(Some(self.next(pool, Behind::Other)?))
    }

    // The leaf of the next token, before which this stands, and the tokens behind it.
    fn next(
        self,
        pool: &mut TextPool,
        behind: Behind,
    ) -> Result<(Leaf, SentTokens<'a>), OutOfMemory>
        requires { self.at < length self.tokens.now }
        ensures { IfOk result (IsNext self.entry (front_of behind)) }
    {
        let rest = &self.tokens[self.at + 1..];
        let token = self.tokens[self.at];
        let leaf = leaf_at(pool, self.prefixes, behind, token, rest, self.bytes)?;
        Ok((
            leaf,
            SentTokens {
                prefixes: self.prefixes,
                bytes: self.bytes,
                tokens: self.tokens,
                at: self.at + 1,
            },
        ))
    }

    /// The tokens behind `^^` and a type.
    pub fn past_type(self, pool: &mut TextPool) -> Result<SentTokens<'a>, LineFault>
        ensures { Gives seen result (past_type (seen self.entry)) }
    {
        let Some((leaf, rest)) = self.first(pool)? else {
            return Err(LineFault::Bad);
        };
        if is_carets(&leaf) {
            rest.past_name(pool)
        } else {
            Err(LineFault::Bad)
        }
    }

    /// The tokens behind `->`.
    pub fn past_arrow(self, pool: &mut TextPool) -> Result<SentTokens<'a>, LineFault>
        ensures { Gives seen result (past_arrow (seen self.entry)) }
    {
        let Some((leaf, rest)) = self.first(pool)? else {
            return Err(LineFault::Bad);
        };
        behind_arrow(leaf, rest)
    }

    /// The tokens behind `]`.
    pub fn past_close_square(self, pool: &mut TextPool) -> Result<SentTokens<'a>, LineFault>
        ensures { Gives seen result (past_close_square (seen self.entry)) }
    {
        let Some((leaf, rest)) = self.first(pool)? else {
            return Err(LineFault::Bad);
        };
        behind_close_square(leaf, rest)
    }

    // The tokens behind a type, which stand behind `^^`.
    fn past_name(self, pool: &mut TextPool) -> Result<SentTokens<'a>, LineFault>
        ensures { Gives seen result (past_name (leaves_past (Carets ∷ []) self.entry)) }
    {
        if self.at == self.tokens.len() {
            return Err(LineFault::Bad);
        }
        let (leaf, rest) = self.next(pool, Behind::Carets)?;
        if is_known_type(&leaf) {
            Ok(rest)
        } else {
            Err(LineFault::Bad)
        }
    }
}

fn is_carets(leaf: &Leaf) -> bool
    ensures { result ≡ is_carets leaf.now }
{
    matches!(leaf, Leaf::Carets)
}

fn is_known_type(leaf: &Leaf) -> bool
    ensures { result ≡ is_known_type leaf.now }
{
    match leaf {
        Leaf::TypeName(known) => *known,
        _ => false,
    }
}
