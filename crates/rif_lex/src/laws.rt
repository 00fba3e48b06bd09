ghost use Rattle.rif_lex.specs.Lexing.{InputsAreTexts, InputsAreRefused};
ghost use Rattle.rif_lex.specs.Forms.{TokensAreLongest, BlanksAreWhite};
ghost use Rattle.rif_lex.specs.Cutting.{TokensAreCut, BadTokenIsFirst, SpansRise, TokensArePlaced, FewTokens};
ghost use Rattle.rif_lex.specs.Constants.{ConstantsAreTokens};
ghost use Rattle.rif_lex.specs.Spelling.{FormsAreTokens, SlicesAreTexts, SlicesAreTokens, SpelledIsLexed};

/// Law: an input has tokens exactly where it isn't too long, is UTF-8, and its text has them.
pub fn inputs_are_texts()
    ensures { InputsAreTexts }
{}

/// Law: an input leads to a refusal exactly where it has it: it is too long, or else not UTF-8 behind its
/// longest front that is, or else its text has a place that can't be read.
pub fn inputs_are_refused()
    ensures { InputsAreRefused }
{}

/// Law: the token at the front of a text is the longest that has a form there, and there is one
/// exactly where what follows may follow it.
pub fn tokens_are_longest()
    ensures { TokensAreLongest }
{}

/// Law: what is passed over at the front of a text is a character of white space, or an annotation.
pub fn blanks_are_white()
    ensures { BlanksAreWhite }
{}

/// Law: a text has these tokens exactly where it is cut into pieces to its end, and the tokens are
/// those among them.
pub fn tokens_are_cut()
    ensures { TokensAreCut }
{}

/// Law: a text has this refusal exactly where it stands at the first place that can't be read: all
/// before it is cut into pieces, and no piece begins there.
pub fn bad_token_is_first()
    ensures { BadTokenIsFirst }
{}

/// Law: the spans of tokens rise, and lie within the text.
#[tactic(auto, using(crate::proofs::SpanLemmas::spans_rise))]
pub fn spans_rise()
    ensures { SpansRise }
{}

/// Law: the slice of a token's span is, alone, one token of its kind, and has no line feed.
pub fn slices_are_tokens()
    ensures { SlicesAreTokens }
{}

/// Law: in a text of UTF-8 the slice of each token's span is UTF-8.
pub fn slices_are_texts()
    ensures { SlicesAreTexts }
{}

/// Law: a token's line and column are those of its first character.
pub fn tokens_are_placed()
    ensures { TokensArePlaced }
{}

/// Law: there are at most as many tokens as bytes.
#[tactic(auto, using(crate::proofs::SpanLemmas::few_tokens))]
pub fn few_tokens()
    ensures { FewTokens }
{}

/// Law: a text is, alone, one token of a kind exactly where it has the kind's form, with nothing
/// behind it. So what is spelled in the form of a token is that token.
pub fn forms_are_tokens()
    ensures { FormsAreTokens }
{}

/// Law: a constant as it is written is one token.
pub fn constants_are_tokens()
    ensures { ConstantsAreTokens }
{}

/// Law: tokens that are written one behind another, each where it ends, are lexed to these tokens.
#[tactic(auto, using(crate::proofs::SpellingLemmas::spelled_is_lexed))]
pub fn spelled_is_lexed()
    ensures { SpelledIsLexed }
{}
