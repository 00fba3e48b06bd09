//! Each public call once, with values from outside, and what no clause says.
mod copies;
mod lists;
mod orders;
mod refusals;
mod rows;
mod texts;
mod written;
mod written_out;
