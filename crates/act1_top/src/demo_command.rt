ghost use Rattle.std.specs.Prelude.{◌≡◌, ◌≤◌, length, IfOk, IfErr};
ghost use Rattle.act1_blifread.specs.Text.{BlifText};
ghost use Rattle.act1_demo.specs.Text.{demo_text};
ghost use Rattle.act1_frame.specs.Reading.{OnlyRead};
ghost use Rattle.act1_frame.specs.Stages.{OnStop};
ghost use Rattle.act1_words.specs.Commands.{IsCountInRange};
ghost use Rattle.act1_top.specs.DemoCommand as command;
ghost use Rattle.act1_flow.specs.Flow.{FlowGives};
ghost use Rattle.act1_top.specs.DemoCommand.{DemoEnds, DemoMayEnd, DemoNetEnds, demo_settings, no_helping};
ghost use Rattle.act1_top.specs.FlowCommand.{IsCause};

use crate::flow_lines::{
    write_demo_line, write_demo_refuted, write_demo_spent, write_needed, write_vertical,
};
use crate::found::device_under;
use act1_base::{HashSeed, Items, Memory};
use act1_blif::Blif;
use act1_blifread::read_blif;
use act1_demo::{demo_blif, demo_lines};
use act1_device::Device;
use act1_flow::{FlowStop, Routed, Settings, flow};
use act1_frame::{Ending, FileText, Stop, Word, with_text};
use act1_fuses::write_fuses;
use act1_outside::{Files, NoHelpers};
use act1_words::DemoWords;
use std::alloc::Global;

// The most bytes of the demo's text; the text of 64 bits has some six thousand.
const MOST_BYTES: usize = 1_000_000;

// The netlist of the demo. The text of a counter is always one of a netlist with one input, which isn't proved: were it
// not, no netlist would be answered.
fn demo_net(alloc: Global, bits: u8) -> Result<Blif, Memory>
    requires low { 1 ≤ bits }
    requires high { bits ≤ 64 }
    ensures is { IfOk result (BlifText (demo_text bits)) }
    ensures input { IfOk result (λ net. length net.inputs ≡ 1) }
{
    let text = demo_blif(alloc, bits)?;
    if text.len() > MOST_BYTES {
        return Err(Memory);
    }
    let Ok(net) = read_blif(alloc, HashSeed::new([0; 16]), &text) else {
        return Err(Memory);
    };
    if net.inputs.len() != 1 {
        return Err(Memory);
    }
    Ok(net)
}

// What the flow is told: the defaults of `flow`.
fn settings() -> Settings
    ensures { result ≡ demo_settings }
{
    Settings {
        k: 3,
        budget: 100_000,
        seed: 0,
        jobs: 0,
    }
}

// The ending of a counter that is on the device, and that shows these lines.
fn routed_ending(
    alloc: Global,
    words: &DemoWords,
    lines: Vec<u8>,
    routed: &Routed,
) -> Result<Ending, Memory>
    ensures { IfOk result (λ ending. ending ≡ command.demo_ending words.now lines.items routed.now.fuses routed.now.«modules») }
{
    let mut text = lines;
    write_demo_line(
        &mut text,
        words.bits,
        u64::from(routed.modules),
        routed.fuses.sites.len() as u64,
    )?;
    let bytes = write_fuses(alloc, &routed.fuses)?;
    let file = FileText {
        name: Word::new(alloc, words.fuses.as_str())?,
        bytes: Items::from_vec(bytes),
    };
    Ok(Ending {
        status: 0,
        text: Items::from_vec(text),
        file: Some(file),
    })
}

// The ending of a counter that isn't put on the device.
fn stopped_ending(alloc: Global, stop: &FlowStop) -> Result<Ending, Memory>
    ensures is { IfOk result (λ ending. ending ≡ command.demo_stop_ending stop.now) }
    ensures cause { IfOk result (λ _. IsCause stop.now) }
{
    let mut text = Vec::new(alloc);
    match stop {
        FlowStop::Pads { needed, have } => {
            write_needed(&mut text, b"pads", *needed, *have)?;
            Ok(with_text(8, text))
        }
        FlowStop::Full { needed, have } => {
            write_needed(&mut text, b"sites", *needed, *have)?;
            Ok(with_text(8, text))
        }
        FlowStop::Vertical { net, channel, plan } => {
            write_vertical(alloc, &mut text, *net, *channel, plan)?;
            Ok(with_text(9, text))
        }
        FlowStop::Refuted {
            report,
            connections,
            tally: _,
        } => {
            write_demo_refuted(alloc, &mut text, report, *connections)?;
            Ok(with_text(10, text))
        }
        FlowStop::Spent {
            plan,
            channel,
            conflicts,
            tracks,
            connections,
            tally: _,
        } => {
            write_demo_spent(
                alloc,
                &mut text,
                *channel,
                *conflicts,
                *tracks,
                *connections,
                plan,
            )?;
            Ok(with_text(11, text))
        }
        FlowStop::Memory => Err(Memory),
    }
}

// What the flow makes of the counter, without helpers.
fn flow_alone(alloc: Global, device: &Device, net: &Blif) -> Result<Routed, FlowStop>
    ensures { FlowGives device.now net.now demo_settings no_helping result }
{
    let settings = settings();
    let mut helpers = NoHelpers::new();
    flow(alloc, device, net, &settings, "", &mut helpers)
}

// The counter on the device, as the text of an antifuse file and the lines that it shows, or why it isn't there.
fn counter_ends(
    alloc: Global,
    device: &Device,
    net: &Blif,
    words: &DemoWords,
) -> Result<Ending, Memory>
    requires { length net.now.inputs ≡ 1 }
    ensures { IfOk result (DemoEnds words.now device.now net.now) }
{
    match flow_alone(alloc, device, net) {
        Ok(routed) => {
            let lines = demo_lines(alloc, net)?;
            Ok(routed_ending(alloc, words, lines, &routed)?)
        }
        Err(stop) => Ok(stopped_ending(alloc, &stop)?),
    }
}

// The netlist of the demo, and what comes of it.
fn demo_ends(alloc: Global, device: &Device, words: &DemoWords) -> Result<Ending, Stop>
    requires { IsCountInRange words.now }
    ensures ok { IfOk result (DemoNetEnds words.now device.now) }
    ensures err { IfErr result (OnStop (DemoNetEnds words.now device.now)) }
{
    let net = demo_net(alloc, words.bits as u8)?;
    Ok(counter_ends(alloc, device, &net, words)?)
}

/// The stages of `demo` in their order.
pub fn demo_ending<F: Files>(
    alloc: Global,
    files: &mut F,
    words: &DemoWords,
) -> Result<Ending, Stop>
    requires { IsCountInRange words.now }
    ensures ok { IfOk result (DemoMayEnd words.now (F.seen files.old) (F.seen files.new)) }
    ensures err { IfErr result (OnStop (DemoMayEnd words.now (F.seen files.old) (F.seen files.new))) }
    ensures files { OnlyRead (F.seen files.old) (F.seen files.new) }
{
    let device = device_under(alloc, files, &words.device)?;
    demo_ends(alloc, &device, words)
}
