ghost use Rattle.std.specs.Prelude.{◌≡◌, IfOk, IfErr, Some as is_some};
ghost use Rattle.act1_frame.specs.Reading.{OnlyRead};
ghost use Rattle.act1_frame.specs.Stages.{OnStop};
ghost use Rattle.act1_words.specs.Commands.{IsInRanges};
ghost use Rattle.act1_top.specs.FlowCommand as command;
ghost use Rattle.act1_flow.specs.Flow.{FlowCalls};
ghost use Rattle.act1_top.specs.FlowCommand.{FlowEnds, FlowMayEnd, IsCause, MayCall, helping_in};

use crate::flow_lines::{write_done, write_needed, write_refuted, write_spent, write_vertical};
use crate::found::{device_under, netlist_under};
use act1_base::{HashSeed, Items, Memory};
use act1_blif::Blif;
use act1_device::Device;
use act1_farm::Tally;
use act1_flow::{FlowStop, Routed, Settings, flow};
use act1_frame::{Ending, FileText, Stop, Word, with_text};
use act1_fuses::write_fuses;
use act1_outside::{Files, Helpers};
use act1_report::{Report, report_text};
use act1_words::FlowWords;
use std::alloc::Global;

// What the flow is told by the words.
fn settings_of(words: &FlowWords) -> Settings
    requires { IsInRanges words.now }
    ensures { result ≡ command.settings_of words.now }
{
    Settings {
        k: words.k as u8,
        budget: words.budget,
        seed: words.seed,
        jobs: words.jobs as u8,
    }
}

// The text of a file.
fn file_text(alloc: Global, name: &Word, bytes: Vec<u8>) -> Result<FileText, Memory>
    ensures { IfOk result (λ file. file ≡ record { name = name.now; bytes = bytes.items }) }
{
    Ok(FileText {
        name: Word::new(alloc, name.as_str())?,
        bytes: Items::from_vec(bytes),
    })
}

// The ending of a netlist that is on the device.
fn routed_ending(alloc: Global, routed: &Routed, fuses: &Word) -> Result<Ending, Memory>
    ensures { IfOk result (λ ending. ending ≡ command.routed_ending fuses.now routed.now.fuses routed.now.«modules» routed.now.tally) }
{
    let mut text = Vec::new(alloc);
    write_done(
        &mut text,
        routed.modules,
        routed.fuses.sites.len() as u64,
        routed.tally,
    )?;
    let bytes = write_fuses(alloc, &routed.fuses)?;
    let file = file_text(alloc, fuses, bytes)?;
    Ok(Ending {
        status: 0,
        text: Items::from_vec(text),
        file: Some(file),
    })
}

// The ending of a channel that has no assignment.
fn refuted_ending(
    alloc: Global,
    name: &Word,
    report: &Report,
    connections: u16,
    tally: Tally,
) -> Result<Ending, Memory>
    ensures { IfOk result (λ ending. ending ≡ command.refuted_ending name.now report.now connections tally) }
{
    let mut text = Vec::new(alloc);
    write_refuted(
        &mut text,
        report.channel,
        connections,
        report.log.steps.len() as u64,
        tally,
    )?;
    let bytes = report_text(alloc, report)?;
    let file = file_text(alloc, name, bytes)?;
    Ok(Ending {
        status: 10,
        text: Items::from_vec(text),
        file: Some(file),
    })
}

// The ending of a netlist that isn't put on the device.
fn stopped_ending(alloc: Global, report: &Word, stop: &FlowStop) -> Result<Ending, Memory>
    ensures is { IfOk result (λ ending. ending ≡ command.stop_ending report.now stop.now) }
    ensures cause { IfOk result (λ _. IsCause stop.now) }
{
    let mut text = Vec::new(alloc);
    match stop {
        FlowStop::Pads { needed, have } => {
            write_needed(&mut text, b"pads", *needed, *have)?;
            Ok(with_text(8, text))
        }
        FlowStop::Full { needed, have } => {
            write_needed(&mut text, b"sites", *needed, *have)?;
            Ok(with_text(8, text))
        }
        FlowStop::Vertical { net, channel, plan } => {
            write_vertical(alloc, &mut text, *net, *channel, plan)?;
            Ok(with_text(9, text))
        }
        FlowStop::Refuted {
            report: made,
            connections,
            tally,
        } => refuted_ending(alloc, report, made, *connections, *tally),
        FlowStop::Spent {
            plan,
            channel,
            conflicts,
            tracks,
            connections,
            tally,
        } => {
            write_spent(
                alloc,
                &mut text,
                *channel,
                *conflicts,
                *tracks,
                *connections,
                plan,
                *tally,
            )?;
            Ok(with_text(11, text))
        }
        FlowStop::Memory => Err(Memory),
    }
}

// The netlist on the device, as the text of an antifuse file, or why it isn't.
fn flow_ends<H: Helpers>(
    alloc: Global,
    device: &Device,
    net: &Blif,
    words: &FlowWords,
    helpers: &mut H,
) -> Result<Ending, Stop>
    requires { IsInRanges words.now }
    ensures ok { IfOk result (FlowEnds words.now (helping_in words.now (H.seen helpers.old) (H.seen helpers.new)) device.now net.now) }
    ensures err { IfErr result (OnStop (FlowEnds words.now (helping_in words.now (H.seen helpers.old) (H.seen helpers.new)) device.now net.now)) }
    ensures calls { FlowCalls device.now net.now (command.settings_of words.now) (helping_in words.now (H.seen helpers.old) (H.seen helpers.new)) }
{
    let settings = settings_of(words);
    match flow(
        alloc,
        device,
        net,
        &settings,
        words.program.as_str(),
        helpers,
    ) {
        Ok(routed) => Ok(routed_ending(alloc, &routed, &words.fuses)?),
        Err(stop) => Ok(stopped_ending(alloc, &words.report, &stop)?),
    }
}

/// The stages of `flow` in their order.
pub fn flow_ending<F: Files, H: Helpers>(
    alloc: Global,
    seed: HashSeed,
    files: &mut F,
    helpers: &mut H,
    words: &FlowWords,
) -> Result<Ending, Stop>
    requires { IsInRanges words.now }
    ensures ok { IfOk result (FlowMayEnd words.now (helping_in words.now (H.seen helpers.old) (H.seen helpers.new)) (F.seen files.old) (F.seen files.new)) }
    ensures err { IfErr result (OnStop (FlowMayEnd words.now (helping_in words.now (H.seen helpers.old) (H.seen helpers.new)) (F.seen files.old) (F.seen files.new))) }
    ensures files { OnlyRead (F.seen files.old) (F.seen files.new) }
    ensures helpers { MayCall words.now (F.seen files.old) (H.seen helpers.old) (H.seen helpers.new) }
{
    let device = device_under(alloc, files, &words.device)?;
    let net = netlist_under(alloc, seed, files, &words.blif)?;
    flow_ends(alloc, &device, &net, words, helpers)
}
