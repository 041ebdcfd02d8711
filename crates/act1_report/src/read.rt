ghost use Rattle.std.specs.Prelude.{◌≡◌, ◌<◌, ◌≤◌, ◌^◌, length};
ghost use Rattle.act1_report.specs.Reads.{ReportReads};
ghost use Rattle.act1_report.specs.Steps.{report_rules};
ghost use Rattle.act1_report.specs.Texts.{IsReportText, draft_of};

use crate::fault::ReportFault;
use crate::line::{Draft, ReportState};
use crate::report::Report;
use crate::step::step;
use crate::table::read_report_line;
use act1_base::{Format, Memory, Stop, TextFault, read_text};
use act1_channel::Log;
use std::alloc::Global;

// The format of the texts of reports.
#[derive(Drop)]
struct ReportFormat {
    alloc: Global,
}

impl Format for ReportFormat {
    type State = ReportState;

    type Kind = ();

    ghost rules = { λ format. report_rules };

    ghost is_text = { λ format. IsReportText };

    fn start(&self) -> Result<ReportState, Memory> {
        Ok(ReportState::Start)
    }

    fn after(&self, state: ReportState, line: &[u8]) -> Result<ReportState, Stop<()>> {
        match read_report_line(self.alloc, line)? {
            Some(line) => step(self.alloc, state, line),
            None => Err(Stop::Fault(())),
        }
    }

    fn unended(&self, _state: &ReportState) {}

    fn end(&self, state: &ReportState) -> Option<()> {
        match state {
            ReportState::End { .. } => None,
            _ => Some(()),
        }
    }
}

// The report that the draft is.
fn report_of(draft: Draft) -> Report
    requires { length draft.steps < 2 ^ 32 }
    ensures { draft_of result ≡ draft }
{
    let Draft {
        plan,
        channel,
        steps,
    } = draft;
    Report {
        plan,
        channel,
        log: Log { steps },
    }
}

/// The report whose text the bytes are, or the first faulty line.
pub(crate) fn read_report(alloc: Global, bytes: &[u8]) -> Result<Report, ReportFault>
    requires { length bytes.now ≤ 4000000000 }
    ensures { ReportReads bytes.now result }
{
    let format = ReportFormat { alloc };
    match read_text(&format, bytes) {
        Ok(state) => match state {
            ReportState::End { draft } => Ok(report_of(draft)),
            _ => unreachable!(),
        },
        Err(Stop::Fault(TextFault { line, kind: _ })) => Err(ReportFault::Line(line)),
        Err(Stop::Memory) => Err(ReportFault::Memory),
    }
}
