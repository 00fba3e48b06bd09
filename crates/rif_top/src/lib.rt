//! The top call: what the program's words are, what it reads and writes for them, and how that ends. The program
//! itself (rif_run) hands it the real words, input and output.
//!
//! | File | Has | Its words |
//! |---|---|---|
//! | `top.rt` | `rif_run`, the call that does all that the program does | `specs/Top.antt` |
//! | `command.rt` | `Command`, what the words tell the program to do | `specs/Commands.antt` |
//! | `words.rt` | the words, read into a command | `specs/Commands.antt` |
//! | `status.rt` | `Status`, how a run ends | `specs/Statuses.antt` |
//! | `reading.rt` | the input, read to its end or to its limit | `specs/Reading.antt` |
//! | `writing.rt` | a text, written whole | `specs/Writing.antt` |
//! | `answer.rt` | `Answer`, what is written for an input | `specs/Answer.antt` |
//! | `job.rt` | the text of a run from the bytes of a job | `specs/Runs.antt` |
//! | `check.rt` | the canonical text of a document from the bytes of a job | `specs/Answer.antt` |
//! | `kept.rt` | `Kept`, a source that keeps what was taken of it | |
//! | `laws.rt` | that an input and a command have one answer | `specs/Answer.antt` |
//! | | that a text fixes its run | `specs/TextLaws.antt` |
//! | | that a run keeps its clients' items | `specs/ClientLaws.antt` |
//!
//! Begin at `rif_run`.
#![tactic(auto)]

mod answer;
mod check;
mod command;
mod job;
mod kept;
pub mod laws;
mod reading;
mod status;
mod top;
mod words;
mod writing;

pub use kept::Kept;
pub use status::Status;
pub use top::rif_run;
