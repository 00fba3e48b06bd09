//! A rule of a document, with where its parts stand.
use crate::spot::place_of_token;
use refusal_lines::{Place, push_short};
use rif_lex::Token;
use rif_tree::Rule;
use rif_values::{OutOfMemory, Text};
use rule_outline::{Mention, Outline};

/// A rule of a document, with its outline, and the tokens of the document.
#[derive(Clone, Copy)]
pub struct RuleView<'a> {
    pub bytes: &'a [u8],
    pub tokens: &'a [Token],
    /// The number of the rule, counted from 1.
    pub number: u32,
    pub rule: &'a Rule,
    pub outline: &'a Outline,
}

impl<'a> RuleView<'a> {
    /// The place of a leaf.
    pub fn place(&self, leaf: usize) -> Option<Place> {
        match self.tokens.get(leaf) {
            Some(token) => Some(place_of_token(self.bytes, token)),
            None => None,
        }
    }

    /// A mention with its number.
    pub fn mention(&self, place: usize) -> Option<&'a Mention> {
        self.outline.mentions.as_slice().get(place)
    }

    /// The place of a mention.
    pub fn place_of_mention(&self, place: usize) -> Option<Place> {
        self.place(self.mention(place)?.leaf)
    }

    /// The place of a part.
    pub fn place_of_part(&self, place: usize) -> Option<Place> {
        self.place(self.outline.parts.as_slice().get(place)?.leaf)
    }

    /// The name of a variable.
    pub fn name(&self, var: u32) -> &'a [u8] {
        name_in(self.rule.names.as_slice(), var)
    }
}

/// The name at a place, and no text where there is none.
pub fn name_in(names: &[Text], var: u32) -> &[u8] {
    match names.get(var as usize) {
        Some(name) => name.bytes(),
        None => b"",
    }
}

/// A variable by its name.
pub fn push_variable(out: &mut Vec<u8>, name: &[u8]) -> Result<(), OutOfMemory> {
    out.push(b'?')?;
    push_short(out, name)
}
