//! Each built-in at its edges.
mod kinds;
mod numbers;
mod strings;
