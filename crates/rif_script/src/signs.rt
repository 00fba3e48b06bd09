//! Signs inside facts.
ghost use Rattle.std.specs.Prelude.{◌∷◌};
ghost use Rattle.rif_script.specs.ReadingItems.{past_arrow, past_close_square};
ghost use Rattle.rif_script.specs.SentLeaves.{Gives, seen};

use crate::line_fault::LineFault;
use crate::sent_tokens::SentTokens;
use prd_reader::Leaf;

/// What is left behind a leaf that has to be `->`.
pub fn behind_arrow<'a>(leaf: Leaf, rest: SentTokens<'a>) -> Result<SentTokens<'a>, LineFault>
    ensures { Gives seen result (past_arrow (leaf ∷ seen rest.entry)) }
{
    match leaf {
        Leaf::Arrow => Ok(rest),
        _ => Err(LineFault::Bad),
    }
}

/// What is left behind a leaf that has to be `]`.
pub fn behind_close_square<'a>(
    leaf: Leaf,
    rest: SentTokens<'a>,
) -> Result<SentTokens<'a>, LineFault>
    ensures { Gives seen result (past_close_square (leaf ∷ seen rest.entry)) }
{
    match leaf {
        Leaf::CloseSquare => Ok(rest),
        _ => Err(LineFault::Bad),
    }
}
