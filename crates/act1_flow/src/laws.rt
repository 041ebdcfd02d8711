ghost use Rattle.act1_flow.specs.Steps.{PlanLaws};
ghost use Rattle.act1_flow.specs.Sure.{FlowIsExtracted, FlowIsNotSpent, FlowSucceeds};

use act1_channel::accepted_logs_refute;
use act1_extract::formed_are_extracted;
use act1_planned::{
    clear_is_kept, form_is_kept, meaning_is_kept, plans_are_legal, ports_are_named,
    sources_are_kept, sums_are_kept,
};
use act1_search::answers_are_exact;

// What the stages of the flow owe to each other.
pub fn plan_laws()
    ensures { PlanLaws }
{
    meaning_is_kept();
    plans_are_legal();
    ports_are_named();
    sources_are_kept();
    sums_are_kept();
    form_is_kept();
    clear_is_kept();
    answers_are_exact();
}

/// The law of what is sure: on a device that is ample for a netlist, an answer of the flow is an antifuse file or want of
/// memory, whatever the settings and the helpers; and on any device it isn't that a search is spent where the budget is at least
/// `(1 + T)^n` for each channel of its plan, T the number of tracks and n that of connections. What the extraction of an
/// antifuse file that the flow gives answers is a netlist, or want of memory.
pub fn flow_is_sure()
    ensures ample { FlowSucceeds }
    ensures unspent { FlowIsNotSpent }
    ensures extracts { FlowIsExtracted }
{
    formed_are_extracted();
    accepted_logs_refute();
}
