ghost use Rattle.act1_top.specs.Laws.{TextsAreOne};

use act1_blifread::blif_texts_are_exact;
use act1_channel::accepted_logs_refute;
use act1_devread::texts_are_exact;
use act1_extract::one_answer as one_extraction;
use act1_flow::flow_is_sure;
use act1_fuses::fuse_texts_are_exact;
use act1_job::job_texts_are_exact;
use act1_report::one_answer as one_report_answer;
use act1_search::answers_are_exact;
use act1_sim::one_answer;

/// The law of what commands read and find: no text is both accepted and refused, each is of one device,
/// netlist, antifuse file or job; an array has one answer to a text of vectors, the search for a job one end,
/// the check of a report one answer, and an array is extracted or
/// refused. On an ample device the flow succeeds, and its searches aren't spent where
/// the budget is enough.
pub fn texts_are_one()
    ensures { TextsAreOne }
{
    texts_are_exact();
    blif_texts_are_exact();
    fuse_texts_are_exact();
    one_answer();
    job_texts_are_exact();
    accepted_logs_refute();
    answers_are_exact();
    one_report_answer();
    one_extraction();
    flow_is_sure();
}
