//! Plans: circuits whose modules have spots on a device, when such a plan is legal, and its text.
#![tactic(auto)]

mod fault;
mod legal;
mod line;
mod made;
mod nets;
mod order;
mod plan;
mod read;
mod step;
mod table;
mod write;

pub use fault::PlanFault;
pub use line::{PlanLine, PlanState};
pub use made::plan_of;
pub use nets::is_same_source;
pub use plan::Plan;
pub use read::read_plan;
pub use step::plan_step;
pub use table::{
    CLOCK_FORM, DEVICE_FORM, INPUT_FORM, K_FORM, MODULE_FORM, OUTPUT_FORM, START_FORM, plan_line_of,
};
pub use write::plan_text;
