ghost use Rattle.std.specs.Prelude.{◌≤◌, length, OnOk};
ghost use Rattle.act1_report.specs.CheckSteps.{GivesProblem, IsVerdictFor, IsVerdictOn};
ghost use Rattle.act1_report.specs.Checks.{Refutes, ReportChecks};

use crate::fault::ReportFault;
use crate::read::read_report;
use crate::report::Report;
use act1_channel::{Log, Problem};
use act1_device::Device;
use act1_groute::{RouteStop, problem_of, routes};
use act1_refute::{CheckFault, check};
use std::alloc::Global;

// The problem that the report's plan sets in its channel.
#[tactic(auto, using(crate::proofs::CheckFacts::sets_that))]
fn problem_in(alloc: Global, device: &Device, report: &Report) -> Result<Problem, ReportFault>
    ensures { GivesProblem device.now report.now result }
{
    if !report.plan.legal(device) {
        return Err(ReportFault::Plan);
    }
    let routes = match routes(alloc, device, &report.plan) {
        Ok(routes) => routes,
        Err(RouteStop::Vertical { .. }) => return Err(ReportFault::Plan),
        Err(RouteStop::Memory) => return Err(ReportFault::Memory),
    };
    if report.channel > device.rows {
        return Err(ReportFault::Plan);
    }
    Ok(problem_of(alloc, device, &routes, report.channel, report.plan.k)?)
}

// Whether the log is accepted for the problem.
fn verdict(alloc: Global, problem: &Problem, log: &Log) -> Result<(), ReportFault>
    ensures { IsVerdictFor problem.now log.now.steps result }
{
    match check(alloc, problem, log) {
        Ok(()) => Ok(()),
        Err(CheckFault::Step(number)) => Err(ReportFault::Step(number)),
        Err(CheckFault::Unfinished) => Err(ReportFault::Unfinished),
        Err(CheckFault::Memory) => Err(ReportFault::Memory),
    }
}

// Whether the report is accepted.
fn check_read(alloc: Global, device: &Device, report: &Report) -> Result<(), ReportFault>
    ensures { IsVerdictOn device.now report.now result }
{
    let problem = problem_in(alloc, device, report)?;
    verdict(alloc, &problem, &report.log)
}

/// Whether the bytes are the text of a report that is accepted: its plan is legal for the device, it has routes and
/// the channel is one of them, and the log is accepted for the problem of that channel, whose connections may occupy
/// as many segments as the plan's `k` says. Then that problem has no assignment, so the plan can't be routed. The
/// rules are this project's own.
///
/// Errors, the first of these that is the case. `Line` with the number of the first faulty line, where the bytes are
/// no text of a report (`report_text`): a line is faulty where it isn't of its form or place, where a number doesn't
/// fit its field (`channel` has at most 255), or where a step has no hint, and else as in the text of a plan or of a
/// log. `Plan`, where the plan isn't legal, has no routes or has no such channel. `Step` with the number, from 0, of the
/// first step that isn't accepted. `Unfinished` where all are, but no last one without choices stands. `Memory` where
/// none was found.
pub fn check_report(alloc: Global, device: &Device, bytes: &[u8]) -> Result<(), ReportFault>
    requires { length bytes.now ≤ 4000000000 }
    ensures checks { ReportChecks device.now bytes.now result }
    ensures refutes { OnOk result (Refutes device.now bytes.now) }
{
    let report = read_report(alloc, bytes)?;
    check_read(alloc, device, &report)
}
