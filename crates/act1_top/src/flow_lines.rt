ghost use Rattle.std.specs.Prelude.{◌≡◌, ◌∷◌, [], ◌++◌, codes, OnOk};
ghost use Rattle.act1_circuit.specs.SourceWords.{source_word};
ghost use Rattle.act1_plan.specs.Texts.{plan_text as plan_bytes};
ghost use Rattle.act1_top.specs.DemoCommand.{demo_line, demo_refuted_text, demo_spent_text};
ghost use Rattle.act1_top.specs.ExtractCommand.{extracted_text};
ghost use Rattle.act1_top.specs.FlowCommand.{counted, done_text, helpers_line, helpers_text, needed_text, refuted_text, spent_line, spent_text, unroutable_line, vertical_text};

use act1_base::{Memory, add_number, add_word};
use act1_circuit::{Source, add_source};
use act1_farm::Tally;
use act1_plan::{Plan, plan_text};
use act1_report::{Report, report_text};
use std::alloc::Global;

// Adds a number, with its name in front.
fn add_count(text: &mut Vec<u8>, name: &[u8], count: u64) -> Result<(), Memory>
    ensures { OnOk result (text.new.items ≡ text.old.items ++ counted name.now count) }
{
    add_word(text, name)?;
    add_number(text, count)
}

// Adds the text of a plan.
fn add_plan(alloc: Global, text: &mut Vec<u8>, plan: &Plan) -> Result<(), Memory>
    ensures { OnOk result (text.new.items ≡ text.old.items ++ plan_bytes plan.now) }
{
    let bytes = plan_text(alloc, plan)?;
    text.extend_from_slice(&bytes)?;
    Ok(())
}

// Adds two numbers with their names and ends the line.
fn add_two(
    text: &mut Vec<u8>,
    first: &[u8],
    count: u64,
    second: &[u8],
    other: u64,
) -> Result<(), Memory>
    ensures { OnOk result (text.new.items ≡ text.old.items ++ counted first.now count ++ counted second.now other ++ 10 ∷ []) }
{
    add_count(text, first, count)?;
    add_count(text, second, other)?;
    text.push(b'\n')?;
    Ok(())
}

// Adds three numbers with their names and ends the line.
fn add_three(
    text: &mut Vec<u8>,
    first: &[u8],
    count: u64,
    second: &[u8],
    other: u64,
    third: &[u8],
    last: u64,
) -> Result<(), Memory>
    ensures { OnOk result (text.new.items ≡ text.old.items ++ (counted first.now count ++ counted second.now other ++ counted third.now last ++ 10 ∷ [])) }
{
    add_count(text, first, count)?;
    add_two(text, second, other, third, last)
}

// Adds the line of a word and three numbers with their names.
fn write_three(
    text: &mut Vec<u8>,
    word: &[u8],
    first: &[u8],
    count: u64,
    second: &[u8],
    other: u64,
    third: &[u8],
    last: u64,
) -> Result<(), Memory>
    ensures { OnOk result (text.new.items ≡ text.old.items ++ (word.now ++ counted first.now count ++ counted second.now other ++ counted third.now last ++ 10 ∷ [])) }
{
    text.extend_from_slice(word)?;
    add_three(text, first, count, second, other, third, last)
}

// Adds a word, a number with its name and the line of three more.
fn write_four(
    text: &mut Vec<u8>,
    word: &[u8],
    name: &[u8],
    number: u64,
    first: &[u8],
    count: u64,
    second: &[u8],
    other: u64,
    third: &[u8],
    last: u64,
) -> Result<(), Memory>
    ensures { OnOk result (text.new.items ≡ text.old.items ++ (word.now ++ counted name.now number ++ counted first.now count ++ counted second.now other ++ counted third.now last ++ 10 ∷ [])) }
{
    text.extend_from_slice(word)?;
    add_count(text, name, number)?;
    add_three(text, first, count, second, other, third, last)
}

// Adds the line of the helpers.
#[tactic(auto, unfolding(crate::specs::FlowCommand::helpers_line))]
fn add_helpers(text: &mut Vec<u8>, asked: u64, taken: u64, faults: u64) -> Result<(), Memory>
    ensures { OnOk result (text.new.items ≡ text.old.items ++ helpers_line asked taken faults) }
{
    write_three(
        text, b"helpers", b"asked", asked, b"taken", taken, b"faults", faults,
    )
}

// Adds what came of the helpers.
fn add_tally(text: &mut Vec<u8>, tally: Tally) -> Result<(), Memory>
    ensures { OnOk result (text.new.items ≡ text.old.items ++ helpers_text tally) }
{
    add_helpers(
        text,
        u64::from(tally.asked),
        u64::from(tally.taken),
        u64::from(tally.faults),
    )
}

/// Adds what is printed of an antifuse file that is done.
pub fn write_done(
    text: &mut Vec<u8>,
    modules: u16,
    antifuses: u64,
    tally: Tally,
) -> Result<(), Memory>
    ensures { OnOk result (text.new.items ≡ text.old.items ++ done_text «modules» antifuses tally) }
{
    text.extend_from_slice(b"done")?;
    add_two(text, b"modules", u64::from(modules), b"fuses", antifuses)?;
    add_tally(text, tally)
}

/// Adds what is printed of a netlist that was extracted.
pub fn write_extracted(text: &mut Vec<u8>, latches: u64, nodes: u64) -> Result<(), Memory>
    ensures { OnOk result (text.new.items ≡ text.old.items ++ extracted_text latches nodes) }
{
    text.extend_from_slice(b"extracted")?;
    add_two(text, b"latches", latches, b"nodes", nodes)
}

/// Adds what is printed of pads or sites that are too few.
pub fn write_needed(text: &mut Vec<u8>, what: &[u8], needed: u32, have: u32) -> Result<(), Memory>
    ensures { OnOk result (text.new.items ≡ text.old.items ++ needed_text what.now needed have) }
{
    text.extend_from_slice(what)?;
    add_two(text, b"needed", u64::from(needed), b"have", u64::from(have))
}

/// Adds what is printed of a plan that the rule of routes fails for.
pub fn write_vertical(
    alloc: Global,
    text: &mut Vec<u8>,
    net: Source,
    channel: u8,
    plan: &Plan,
) -> Result<(), Memory>
    ensures { OnOk result (text.new.items ≡ text.old.items ++ vertical_text net channel plan.now) }
{
    text.extend_from_slice(b"vertical net ")?;
    add_source(text, net)?;
    add_count(text, b"channel", u64::from(channel))?;
    text.push(b'\n')?;
    add_plan(alloc, text, plan)
}

// Adds the line of a channel that has no assignment.
#[tactic(auto, unfolding(crate::specs::FlowCommand::unroutable_line))]
fn write_unroutable(
    text: &mut Vec<u8>,
    channel: u64,
    connections: u64,
    steps: u64,
) -> Result<(), Memory>
    ensures { OnOk result (text.new.items ≡ text.old.items ++ unroutable_line channel connections steps) }
{
    write_three(
        text,
        b"unroutable",
        b"channel",
        channel,
        b"connections",
        connections,
        b"steps",
        steps,
    )
}

/// Adds what is printed of a channel that has no assignment.
pub fn write_refuted(
    text: &mut Vec<u8>,
    channel: u8,
    connections: u16,
    steps: u64,
    tally: Tally,
) -> Result<(), Memory>
    ensures { OnOk result (text.new.items ≡ text.old.items ++ refuted_text channel connections steps tally) }
{
    write_unroutable(text, u64::from(channel), u64::from(connections), steps)?;
    add_tally(text, tally)
}

// Adds the line of a channel whose search spent its budget.
#[tactic(auto, unfolding(crate::specs::FlowCommand::spent_line))]
fn write_spent_line(
    text: &mut Vec<u8>,
    channel: u64,
    conflicts: u64,
    tracks: u64,
    connections: u64,
) -> Result<(), Memory>
    ensures { OnOk result (text.new.items ≡ text.old.items ++ spent_line channel conflicts tracks connections) }
{
    write_four(
        text,
        b"spent",
        b"channel",
        channel,
        b"conflicts",
        conflicts,
        b"tracks",
        tracks,
        b"connections",
        connections,
    )
}

/// Adds what is printed of a channel whose search spent its budget.
pub fn write_spent(
    alloc: Global,
    text: &mut Vec<u8>,
    channel: u8,
    conflicts: u64,
    tracks: u8,
    connections: u16,
    plan: &Plan,
    tally: Tally,
) -> Result<(), Memory>
    ensures { OnOk result (text.new.items ≡ text.old.items ++ spent_text channel conflicts tracks connections plan.now tally) }
{
    write_spent_line(
        text,
        u64::from(channel),
        conflicts,
        u64::from(tracks),
        u64::from(connections),
    )?;
    add_plan(alloc, text, plan)?;
    add_tally(text, tally)
}

/// Adds the line of a demo that is done: the numbers of its bits, modules and antifuses.
#[tactic(auto, unfolding(crate::specs::DemoCommand::demo_line))]
pub fn write_demo_line(
    text: &mut Vec<u8>,
    bits: u64,
    modules: u64,
    antifuses: u64,
) -> Result<(), Memory>
    ensures { OnOk result (text.new.items ≡ text.old.items ++ demo_line bits «modules» antifuses) }
{
    write_three(
        text, b"demo", b"bits", bits, b"modules", modules, b"fuses", antifuses,
    )
}

/// Adds what a demo prints of a channel that has no assignment: its line, and the text of the report.
pub fn write_demo_refuted(
    alloc: Global,
    text: &mut Vec<u8>,
    report: &Report,
    connections: u16,
) -> Result<(), Memory>
    ensures { OnOk result (text.new.items ≡ text.old.items ++ demo_refuted_text report.now connections) }
{
    write_unroutable(
        text,
        u64::from(report.channel),
        u64::from(connections),
        report.log.steps.len() as u64,
    )?;
    let bytes = report_text(alloc, report)?;
    text.extend_from_slice(&bytes)?;
    Ok(())
}

/// Adds what a demo prints of a channel whose search spent its budget: its line, and the plan.
pub fn write_demo_spent(
    alloc: Global,
    text: &mut Vec<u8>,
    channel: u8,
    conflicts: u64,
    tracks: u8,
    connections: u16,
    plan: &Plan,
) -> Result<(), Memory>
    ensures { OnOk result (text.new.items ≡ text.old.items ++ demo_spent_text channel conflicts tracks connections plan.now) }
{
    write_spent_line(
        text,
        u64::from(channel),
        conflicts,
        u64::from(tracks),
        u64::from(connections),
    )?;
    add_plan(alloc, text, plan)
}
