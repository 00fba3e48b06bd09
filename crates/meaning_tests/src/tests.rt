//! Calls with small values.
mod calls;
