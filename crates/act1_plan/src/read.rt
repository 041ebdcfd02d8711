ghost use Rattle.std.specs.Prelude.{◌≡◌, ◌≤◌, length};
ghost use Rattle.act1_plan.specs.Reads.{PlanReads, ReadsAgain, IsPlanText};
ghost use Rattle.act1_plan.specs.Steps.{plan_rules};

use crate::fault::PlanFault;
use crate::line::PlanState;
use crate::plan::Plan;
use crate::step::plan_step;
use crate::table::read_plan_line;
use act1_base::{Format, Memory, Stop, TextFault, read_text};
use std::alloc::Global;

// The format of the texts of plans.
#[derive(Drop)]
struct PlanFormat {
    alloc: Global,
}

impl Format for PlanFormat {
    type State = PlanState;

    type Kind = ();

    ghost rules = { λ format. plan_rules };

    ghost is_text = { λ format. IsPlanText };

    fn start(&self) -> Result<PlanState, Memory> {
        Ok(PlanState::Start)
    }

    fn after(&self, state: PlanState, line: &[u8]) -> Result<PlanState, Stop<()>> {
        match read_plan_line(self.alloc, line)? {
            Some(line) => plan_step(self.alloc, state, line),
            None => Err(Stop::Fault(())),
        }
    }

    fn unended(&self, _state: &PlanState) {}

    fn end(&self, state: &PlanState) -> Option<()> {
        match state {
            PlanState::Body { .. } => None,
            _ => Some(()),
        }
    }
}

/// The plan that the bytes spell, or the first faulty line. The format is that of `plan_text`: a line is faulty
/// where it isn't of its form or place, where a number doesn't fit its field (`k`, rows and columns have at most
/// 255, numbers of inputs and modules at most 65,535, and an init at most 3), where a name isn't of 1 to 1,024
/// bytes from 0x21 to 0x7E without `#`, of which the last is no backslash, or where a `start` or `module` line
/// isn't greater than the one before it. Repeated names, and a `k`, a spot, a source or a start that are out of
/// range for a device or the circuit, are no faults of the text. So `Ok` comes exactly for the text of a plan that a
/// text can say, with that plan.
pub fn read_plan(alloc: Global, bytes: &[u8]) -> Result<Plan, PlanFault>
    requires { length bytes.now ≤ 4000000000 }
    ensures first { PlanReads bytes.now result }
    ensures again { ReadsAgain bytes.now result }
{
    let format = PlanFormat { alloc };
    match read_text(&format, bytes) {
        Ok(state) => match state {
            PlanState::Body { plan } => Ok(plan),
            _ => unreachable!(),
        },
        Err(Stop::Fault(TextFault { line, kind: _ })) => Err(PlanFault::Line(line)),
        Err(Stop::Memory) => Err(PlanFault::Memory),
    }
}
