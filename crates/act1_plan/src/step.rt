ghost use Rattle.std.specs.Prelude.{◌≡◌, ◌∷◌, OnOk};
ghost use Rattle.act1_base.specs.Texts.{Gives};
ghost use Rattle.act1_plan.specs.Order.{spot_is_before};
ghost use Rattle.act1_plan.specs.Steps as steps;

use crate::line::{PlanLine, PlanState};
use crate::order::spot_is_before;
use crate::plan::Plan;
use act1_base::{Items, Memory, Name, Stop};
use act1_circuit::{Circuit, Output, Placed, Source, Spot, Start};
use std::alloc::Global;

// A plan of nothing.
fn empty_plan(alloc: Global, device: Name, k: u8) -> Plan
    ensures { result ≡ steps.empty_plan device k }
{
    Plan {
        device,
        k,
        placed: Placed {
            circuit: Circuit {
                clock: None,
                inputs: Items::new(alloc),
                modules: Items::new(alloc),
                outputs: Items::new(alloc),
                starts: Items::new(alloc),
            },
            spots: Items::new(alloc),
        },
    }
}

// Whether an output may follow.
fn takes_output(circuit: &Circuit) -> bool
    ensures { result ≡ steps.takes_output circuit.now }
{
    circuit.modules.is_empty() && circuit.starts.is_empty()
}

// Whether an input may follow.
fn takes_input(circuit: &Circuit) -> bool
    ensures { result ≡ steps.takes_input circuit.now }
{
    takes_output(circuit) && circuit.outputs.is_empty()
}

// Whether the clock may follow.
fn takes_clock(circuit: &Circuit) -> bool
    ensures { result ≡ steps.takes_clock circuit.now }
{
    takes_input(circuit) && circuit.inputs.is_empty() && circuit.clock.is_none()
}

// Whether the last of the starts comes before this one.
#[tactic(auto, using(crate::proofs::PlanSteps::after_last_start, crate::proofs::PlanSteps::after_no_start))]
fn comes_after_starts(starts: &[Start], start: &Start) -> bool
    ensures { result ≡ steps.comes_after steps.start_is_before starts.now start.now }
{
    match starts.last() {
        Some(last) => last.module < start.module,
        None => true,
    }
}

// Whether the start may follow.
fn takes_start(circuit: &Circuit, start: &Start) -> bool
    ensures { result ≡ steps.takes_start circuit.now start.now }
{
    circuit.modules.is_empty() && comes_after_starts(circuit.starts.as_slice(), start)
}

// Whether the last of the spots comes before this one.
#[tactic(auto, using(crate::proofs::PlanSteps::after_last_spot, crate::proofs::PlanSteps::after_no_spot))]
fn comes_after_spots(spots: &[Spot], spot: Spot) -> bool
    ensures { result ≡ steps.comes_after spot_is_before spots.now spot }
{
    match spots.last() {
        Some(last) => spot_is_before(*last, spot),
        None => true,
    }
}

// Adds an input.
fn add_input(plan: &mut Plan, name: Name) -> Result<(), Memory>
    ensures { OnOk result (plan.new ≡ steps.with_input plan.old name) }
{
    plan.placed.circuit.inputs.push(name)
}

// Adds an output.
fn add_output(plan: &mut Plan, output: Output) -> Result<(), Memory>
    ensures { OnOk result (plan.new ≡ steps.with_output plan.old output) }
{
    plan.placed.circuit.outputs.push(output)
}

// Adds a start.
fn add_start(plan: &mut Plan, start: Start) -> Result<(), Memory>
    ensures { OnOk result (plan.new ≡ steps.with_start plan.old start) }
{
    plan.placed.circuit.starts.push(start)
}

// Adds a module.
fn add_module(plan: &mut Plan, spot: Spot, pins: [Source; 8]) -> Result<(), Memory>
    ensures { OnOk result (plan.new ≡ steps.with_module plan.old spot pins) }
{
    plan.placed.circuit.modules.push(pins)?;
    plan.placed.spots.push(spot)
}

// Whether the line may follow behind `k`.
fn takes(plan: &Plan, line: &PlanLine) -> bool
    ensures { result ≡ steps.takes plan.now line.now }
{
    let circuit = &plan.placed.circuit;
    match line {
        PlanLine::Clock { .. } => takes_clock(circuit),
        PlanLine::Input { .. } => takes_input(circuit),
        PlanLine::Output { .. } => takes_output(circuit),
        PlanLine::Start { start } => takes_start(circuit, start),
        PlanLine::Module { spot, .. } => comes_after_spots(plan.placed.spots.as_slice(), *spot),
        _ => false,
    }
}

// Adds what the line says.
fn add_line(plan: &mut Plan, line: PlanLine) -> Result<(), Memory>
    ensures { OnOk result (plan.new ≡ steps.with_line plan.old line) }
{
    match line {
        PlanLine::Clock { name } => {
            plan.placed.circuit.clock = Some(name);
            Ok(())
        }
        PlanLine::Input { name } => add_input(plan, name),
        PlanLine::Output { output } => add_output(plan, output),
        PlanLine::Start { start } => add_start(plan, start),
        PlanLine::Module { spot, pins } => add_module(plan, spot, pins),
        _ => Ok(()),
    }
}

// The plan with what a line behind `k` says.
fn body_step(mut plan: Plan, line: PlanLine) -> Result<PlanState, Stop<()>>
    ensures { Gives result (steps.if_so (steps.takes plan line) (steps.with_line plan line)) }
{
    if !takes(&plan, &line) {
        return Err(Stop::Fault(()));
    }
    add_line(&mut plan, line)?;
    Ok(PlanState::Body { plan })
}

/// The state after a line more of the text of a plan.
///
/// Errors: the one fault that a line can have, that it may not come next; `Memory`.
pub fn plan_step(alloc: Global, state: PlanState, line: PlanLine) -> Result<PlanState, Stop<()>>
    ensures { Gives result (steps.step state line) }
{
    match state {
        PlanState::Start => match line {
            PlanLine::Device { name } => Ok(PlanState::Device { name }),
            _ => Err(Stop::Fault(())),
        },
        PlanState::Device { name } => match line {
            PlanLine::K { k } => Ok(PlanState::Body {
                plan: empty_plan(alloc, name, k),
            }),
            _ => Err(Stop::Fault(())),
        },
        PlanState::Body { plan } => body_step(plan, line),
    }
}
