ghost use Rattle.std.specs.Prelude.{◌≡◌, ◌<◌, ◌≤◌, length, drop, if◌then◌else◌};
ghost use Rattle.rif_lex.specs.Characters.{begins};
ghost use Rattle.rif_lex.specs.Pieces.{piece_at, piece_of, integer_to, token_to, named, name_length};
ghost use Rattle.rif_lex.specs.Scanning.{FitsIn};
ghost use Rattle.rif_lex.specs.declared.class.Class.TheVariants.{Letter, Minus, Open};
ghost use Rattle.rif_lex.specs.declared.piece.Piece.TheVariants.{Lexeme};

use crate::class::{Class, class_of};
use crate::scan::{annotation_end, digits_end, has_at, iri_end, is_name_at, name_end, string_end};
use crate::token::Kind;

/// What stands at the front of a text.
#[derive(Clone, Copy, Debug)]
pub enum Piece {
    /// Nothing that can be read begins here.
    Unreadable,
    /// So many bytes of white space: one character, or an annotation.
    Blank(usize),
    /// A token of the kind, of so many bytes.
    Lexeme(Kind, usize),
}

impl Piece {
    /// The piece at the front of a text.
    #[inline(always)]
    pub fn at_front(text: &[u8]) -> Piece
        requires { 0 < length text.now }
        ensures is { result ≡ piece_at text.now }
        ensures fits { FitsIn result (length text.now) }
    {
        Piece::of_class(class_of(text[0]), text)
    }

    /// The piece at the front of a text whose first byte has the class.
    #[inline(always)]
    fn of_class(class: Class, text: &[u8]) -> Piece
        requires { 0 < length text.now }
        ensures { result ≡ piece_of class text.now }
    {
        match class {
            Class::White => Piece::Blank(1),
            Class::Letter => word(text),
            Class::Zero => integer(text, 1),
            Class::Digit => integer(text, digits_end(text, 1)),
            Class::Underscore => name(Kind::Local, text),
            Class::Minus => minus(text),
            Class::Question => name(Kind::Var, text),
            Class::Quote => token_up_to(Kind::Str, string_end(text, 1)),
            Class::Less => token_up_to(Kind::Iri, iri_end(text, 1)),
            Class::Open => bracket(text),
            Class::Close => Piece::Lexeme(Kind::Close, 1),
            Class::OpenSquare => Piece::Lexeme(Kind::OpenSquare, 1),
            Class::CloseSquare => Piece::Lexeme(Kind::CloseSquare, 1),
            Class::Equal => Piece::Lexeme(Kind::Equal, 1),
            Class::Hash => one_or_two(text, b'#', Piece::Lexeme(Kind::Hash, 1), Kind::HashHash),
            Class::Caret => one_or_two(text, b'^', Piece::Unreadable, Kind::Carets),
            Class::Other => Piece::Unreadable,
        }
    }
}

/// A word or a CURIE.
fn word(text: &[u8]) -> Piece
    requires { 0 < length text.now }
    ensures { result ≡ piece_of Letter text.now }
{
    let end = name_end(text, 1);
    if has_at(text, end, b':') {
        Piece::Lexeme(Kind::Curie, name_end(text, end + 1))
    } else {
        Piece::Lexeme(Kind::Word, end)
    }
}

/// A sign and the name behind it.
fn name(kind: Kind, text: &[u8]) -> Piece
    requires { 0 < length text.now }
    ensures { let n = name_length (drop 1 text.now) in result ≡ named kind n }
{
    let end = name_end(text, 1);
    if end == 1 {
        Piece::Unreadable
    } else {
        Piece::Lexeme(kind, end)
    }
}

/// An integer whose digits go up to the end.
fn integer(text: &[u8], end: usize) -> Piece
    requires low { 0 < end }
    requires high { end ≤ length text.now }
    ensures { result ≡ integer_to end text.now }
{
    if (end < text.len() && is_name_at(text, end)) || has_at(text, end, b':') {
        Piece::Unreadable
    } else {
        Piece::Lexeme(Kind::Int, end)
    }
}

/// An arrow, or an integer below 0.
fn minus(text: &[u8]) -> Piece
    requires { 0 < length text.now }
    ensures { result ≡ piece_of Minus text.now }
{
    if has_at(text, 1, b'>') {
        Piece::Lexeme(Kind::Arrow, 2)
    } else if 1 < text.len() && text[1] >= b'1' && text[1] <= b'9' {
        integer(text, digits_end(text, 1))
    } else {
        Piece::Unreadable
    }
}

/// An opening bracket or an annotation.
fn bracket(text: &[u8]) -> Piece
    requires { 0 < length text.now }
    ensures { result ≡ piece_of Open text.now }
{
    if !has_at(text, 1, b'*') {
        return Piece::Lexeme(Kind::Open, 1);
    }
    match annotation_end(text, 2) {
        Some(end) => Piece::Blank(end),
        None => Piece::Unreadable,
    }
}

/// A token up to its end, if it is closed.
fn token_up_to(kind: Kind, end: Option<usize>) -> Piece
    ensures { result ≡ token_to kind end }
{
    match end {
        Some(end) => Piece::Lexeme(kind, end),
        None => Piece::Unreadable,
    }
}

/// What one sign is, or the token of two such signs.
fn one_or_two(text: &[u8], sign: u8, one: Piece, two: Kind) -> Piece
    requires { 0 < length text.now }
    ensures { result ≡ (if begins sign (drop 1 text.now) then Lexeme two 2 else one) }
{
    if has_at(text, 1, sign) {
        Piece::Lexeme(two, 2)
    } else {
        one
    }
}
