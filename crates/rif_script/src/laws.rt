//! Laws of the definitions: functions without parameters, whose bodies are empty.
ghost use Rattle.rif_script.specs.CheckedText.{CheckedTextIsAJob};
ghost use Rattle.rif_script.specs.CuttingLaws.{CutEndsBatches, CutIsLawful, CutKeepsAll, CutLeavesBehindDispose};
ghost use Rattle.rif_script.specs.CuttingLaws.{EntriesFollowScripts};
ghost use Rattle.rif_script.specs.JobClients.{JobsHaveClients};
ghost use Rattle.rif_script.specs.Jobs.{OneOutcome};
ghost use Rattle.rif_script.specs.TraceLaws.{SameTextSameRun};

/// Law: the batches of a script joined, and then what is left, are all its entries in order.
pub fn cut_keeps_all()
    ensures { CutKeepsAll }
{}

/// Law: each batch of a script is lawful, none is empty, and none follows one that ends in a Dispose.
pub fn cut_is_lawful()
    ensures { CutIsLawful }
{}

/// Law: a control item ends its batch, and a batch before the last ends in one or is full.
pub fn cut_ends_batches()
    ensures { CutEndsBatches }
{}

/// Law: where entries are left, a Dispose ends those in the batches: nothing else leaves any.
pub fn cut_leaves_behind_dispose()
    ensures { CutLeavesBehindDispose }
{}

/// Law: a client's entries are its items in order, with the ranks 0, 1, 2 and so on.
pub fn entries_follow_scripts()
    ensures { EntriesFollowScripts }
{}

/// Law: two runs of a job that have the same text have the same batches, and so the same turns, and the
/// same entries left. Each turn is a function of the batches up to it, and the clients' entries follow
/// their scripts.
pub fn same_text_same_run()
    ensures { SameTextSameRun }
{}

/// Law: each job that an input is has clients' names that have the form of one and differ, and each of its
/// items is of one of these clients.
pub fn jobs_have_clients()
    ensures { JobsHaveClients }
{}

/// Law: an input is one job at most, of one document, has one refusal at most, and not both.
pub fn one_outcome()
    ensures { OneOutcome }
{}

/// Law: the canonical text of the document that was read of an input, as an input of its own, is a job of that
/// document with no clients and no items, and so has itself as its canonical text; or it is refused, where it is
/// longer than an input may be, or at a bracket in it that stands deeper than one may; and it is nothing else.
pub fn checked_text_is_a_job()
    ensures { CheckedTextIsAJob }
{}
