//! Laws of the definitions.
ghost use Rattle.rif_top.specs.Answer.{OneAnswer};
ghost use Rattle.rif_top.specs.ClientLaws.{RunsKeepScripts};
ghost use Rattle.rif_top.specs.TextLaws.{TextFixesRun};

use prd_relation::laws::one_replay;
use rif_script::laws::{
    cut_keeps_all, cut_leaves_behind_dispose, entries_follow_scripts, jobs_have_clients,
    one_outcome, same_text_same_run,
};

/// Law: an input and a command have one answer at most: one status and one text.
pub fn one_answer()
    ensures { OneAnswer }
{
    one_outcome();
    one_replay();
}

/// Law: two runs of one job that an input is, which have the same text, have the same batches, and so the
/// same turns, and the same entries left. The clients' entries follow their scripts in both.
pub fn text_fixes_run()
    ensures { TextFixesRun }
{
    jobs_have_clients();
    same_text_same_run();
}

/// Law: in the batches of the run of a job that an input is, and then in what is left of its script, stand each
/// client's items, once and in order, with the ranks 0, 1, 2 and so on. Where something is left, the last entry of
/// the batches is a Dispose.
pub fn runs_keep_scripts()
    ensures { RunsKeepScripts }
{
    cut_keeps_all();
    cut_leaves_behind_dispose();
    entries_follow_scripts();
    jobs_have_clients();
}
