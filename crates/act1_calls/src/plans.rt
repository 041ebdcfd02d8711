use crate::arrays::{add_bytes, device_of};
use crate::input::text_of;
use act1_plan::{Plan, PlanFault, plan_text, read_plan};
use std::alloc::Global;
use std::fmt::Write;
use std::rt::Files;

/// The plan that the bytes spell, or why there is none.
pub fn plan_in(alloc: Global, bytes: &[u8]) -> Result<Plan, PlanFault> {
    if bytes.len() > 4_000_000_000 {
        return Err(PlanFault::Memory);
    }
    read_plan(alloc, bytes)
}

// Adds the line that is refused; there is none where memory is short.
fn add_fault(fault: PlanFault, text: &mut String) -> Option<()> {
    match fault {
        PlanFault::Line(line) => writeln!(text, "line {line}").ok(),
        PlanFault::Memory => None,
    }
}

// Adds the plan as it is written.
fn add_plan(alloc: Global, plan: &Plan, text: &mut String) -> Option<()> {
    let bytes = plan_text(alloc, plan).ok()?;
    add_bytes(text, &bytes)
}

/// The row `plan TEXT`.
pub fn plan_row(alloc: Global, words: &[&str], text: &mut String) -> Option<()> {
    let bytes = text_of(alloc, words)?;
    match plan_in(alloc, &bytes) {
        Ok(plan) => add_plan(alloc, &plan, text),
        Err(fault) => add_fault(fault, text),
    }
}

/// The row `legal DEVICE TEXT`.
pub fn legal_row<R: Files>(rt: &R, alloc: Global, words: &[&str], text: &mut String) -> Option<()> {
    let (device, words) = words.split_first()?;
    let device = device_of(rt, alloc, device)?;
    let bytes = text_of(alloc, words)?;
    let plan = plan_in(alloc, &bytes).ok()?;
    let legal = plan.legal(&device);
    text.push_str(if legal { "yes\n" } else { "no\n" }).ok()
}
