//! Jobs, the text of a run, and where the bytes of both come from and go to.
//!
//! | File | Has | Its words |
//! |---|---|---|
//! | `job.rt` | `Job`, safe rules and the items of clients; `read_job`, `read_doc_and_job` | `specs/Jobs.antt` |
//! | `document_part.rt` | a job's document and its script, and the lines of a text | `specs/Jobs.antt` |
//! | `script.rt`, `script_line.rt` | the clients and items of a script, and what its lines are | `specs/Jobs.antt` |
//! | `items.rt`, `facts.rt`, `constants.rt` | what the tokens of a line are | `specs/Jobs.antt` |
//! | `sent_tokens.rt`, `signs.rt` | the tokens that are left of a line | |
//! | `cutting.rt` | `batches_of`, the batches of a job for one thread | `specs/Cutting.antt` |
//! | `lines.rt` | the lines of items | `specs/Lines.antt` |
//! | `trace.rt` | `write_run`, the text of a run: a trace line is made here | `specs/Trace.antt` |
//! | `refusal_line.rt` | `write_refusal`, the line of a refused input | `specs/RefusalLine.antt` |
//! | `laws.rt` | that an input has one outcome | `specs/Jobs.antt` |
//! | | that the text of a document that was read is a job of its own | `specs/CheckedText.antt` |
//! | | that a job has its clients | `specs/JobClients.antt` |
//! | | what the cut keeps, and what a text determines | `specs/CuttingLaws.antt`, `specs/TraceLaws.antt` |
//! | `source.rt`, `sink.rt` | `Source` and `Sink`, what gives bytes and what takes them | `specs/Faults.antt` |
//! | `failed.rt` | `Failed`, a call that moved no byte | |
//! | `memory_source.rt`, `memory_sink.rt` | `MemSource` and `MemSink`, the two in memory | `specs/InMemory.antt` |
//! | `fault_plan.rt` | which calls on a form in memory fail | `specs/InMemory.antt` |
//! | `standard.rt` | `StdSource` and `StdSink`, over std's readers and writers | `specs/Standard.antt` |
//!
//! Begin at `read_job` and `write_run`, and for input and output at `Source` and `Sink`.
#![tactic(auto)]

mod constants;
mod cutting;
mod document_part;
mod facts;
mod failed;
mod fault_plan;
mod items;
mod job;
pub mod laws;
mod line_fault;
mod lines;
mod memory_sink;
mod memory_source;
mod refusal_line;
mod script;
mod script_line;
mod sent_tokens;
mod signs;
mod sink;
mod source;
mod standard;
mod trace;

pub use cutting::batches_of;
pub use document_part::doc_part;
pub use failed::Failed;
pub use job::{Job, read_doc_and_job, read_job};
pub use memory_sink::MemSink;
pub use memory_source::MemSource;
pub use refusal_line::write_refusal;
pub use sink::Sink;
pub use source::Source;
pub use standard::{StdSink, StdSource};
pub use trace::write_run;
