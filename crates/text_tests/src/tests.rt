//! Tables of inputs with what they lead to.
mod cuts;
mod documents;
mod ends;
mod jobs;
mod lexing;
mod limits;
mod scripts;
mod tokens;
mod utf8;
