ghost use Rattle.std.specs.Prelude.{◌≡◌, ◌≤◌, ◌∷◌, ◌++◌, [], length, IfOk, IfErr, OnOk};
ghost use Rattle.std.specs.Fmt.{decimal};
ghost use Rattle.act1_base.specs.Words.{text_line};
ghost use Rattle.act1_frame.specs.Endings.{printed};
ghost use Rattle.act1_frame.specs.Reading.{Found, OnlyRead};
ghost use Rattle.act1_frame.specs.Stages.{FileStops, OnStop};
ghost use Rattle.act1_top.specs.CheckCommand.{accepted_text, report_fault_words, report_file, CheckMayEnd, ReportAccepted, ReportRefused};

use crate::found::device_under;
use act1_base::{Memory, add_number, write_word};
use act1_device::Device;
use act1_frame::{Ending, Stop, Word, read, with_text};
use act1_outside::Files;
use act1_report::{ReportFault, check_report};
use act1_words::CheckWords;
use std::alloc::Global;

// The most bytes that are read of a report: 256 MiB.
const MOST_REPORT_BYTES: u64 = 268_435_456;

// Adds a line of some words and a number.
fn write_numbered(text: &mut Vec<u8>, words: &[u8], number: u32) -> Result<(), Memory>
    ensures { OnOk result (text.new.items ≡ text.old.items ++ text_line (words.now ∷ decimal number ∷ [])) }
{
    text.extend_from_slice(words)?;
    add_number(text, u64::from(number))?;
    text.push(b'\n')?;
    Ok(())
}

// Adds what is printed of a report with this fault.
fn write_fault(text: &mut Vec<u8>, fault: ReportFault) -> Result<(), Memory>
    ensures { OnOk result (text.new.items ≡ text.old.items ++ text_line (report_fault_words fault)) }
{
    match fault {
        ReportFault::Line(number) => write_numbered(text, b"report line", number),
        ReportFault::Plan => write_word(text, b"report plan"),
        ReportFault::Step(number) => write_numbered(text, b"report step", number),
        ReportFault::Unfinished => write_word(text, b"report unfinished"),
        ReportFault::Memory => write_word(text, b"memory"),
    }
}

// Whether the bytes are the text of a report that is accepted for the device.
fn report_of(alloc: Global, device: &Device, bytes: &[u8]) -> Result<(), Stop>
    requires { length bytes.now ≤ 4000000000 }
    ensures ok { IfOk result (ReportAccepted device.now bytes.now) }
    ensures err { IfErr result (OnStop (ReportRefused device.now bytes.now)) }
{
    match check_report(alloc, device, bytes) {
        Ok(()) => Ok(()),
        Err(ReportFault::Memory) => Err(Stop::Memory),
        Err(fault) => {
            let mut text = Vec::new(alloc);
            write_fault(&mut text, fault)?;
            Err(Stop::Ends(with_text(12, text)))
        }
    }
}

// Whether what is under a name is a report that is accepted for the device.
fn report_under<F: Files>(
    alloc: Global,
    files: &mut F,
    device: &Device,
    name: &Word,
) -> Result<(), Stop>
    ensures ok { IfOk result (Found (ReportAccepted device.now) (F.seen files.old) (report_file name.now)) }
    ensures err { IfErr result (OnStop (FileStops (ReportRefused device.now) (F.seen files.old) (F.seen files.new) (report_file name.now))) }
    ensures files { OnlyRead (F.seen files.old) (F.seen files.new) }
{
    match read(alloc, files, name, MOST_REPORT_BYTES) {
        Ok(bytes) => report_of(alloc, device, &bytes),
        Err(stop) => Err(stop),
    }
}

// The ending of a report that is accepted.
fn accepted_ending(alloc: Global) -> Result<Ending, Memory>
    ensures { IfOk result (λ ending. ending ≡ printed accepted_text) }
{
    let mut text = Vec::new(alloc);
    write_word(&mut text, b"accepted")?;
    Ok(with_text(0, text))
}

/// The stages of `check` in their order.
pub fn check_ending<F: Files>(
    alloc: Global,
    files: &mut F,
    words: &CheckWords,
) -> Result<Ending, Stop>
    ensures ok { IfOk result (CheckMayEnd words.now (F.seen files.old) (F.seen files.new)) }
    ensures err { IfErr result (OnStop (CheckMayEnd words.now (F.seen files.old) (F.seen files.new))) }
    ensures files { OnlyRead (F.seen files.old) (F.seen files.new) }
{
    let device = device_under(alloc, files, &words.device)?;
    report_under(alloc, files, &device, &words.report)?;
    Ok(accepted_ending(alloc)?)
}
