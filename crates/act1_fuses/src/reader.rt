ghost use Rattle.std.specs.Prelude.{◌≡◌, IfOk};
ghost use Rattle.act1_base.specs.Texts.{Gives};
ghost use Rattle.act1_fuses.specs.Reading as reading;
ghost use Rattle.act1_fuses.specs.Reading.{first_state, fuse_rules, has_ended};
ghost use Rattle.act1_fuses.specs.ReadingSteps.{Takes};
ghost use Rattle.act1_fuses.specs.Given.{given_of};

use crate::fault::FuseKind;
use crate::form::{END, FuseLine, FuseState};
use crate::fuses::FuseFile;
use crate::given::GivenNames;
use crate::lines::read_line;
use crate::step::step;
use act1_base::{HashSeed, Items, Memory, Name, Stop};
use act1_device::Device;
use std::alloc::Global;
use std::marker::Model;

/// What the lines of an antifuse file say so far, with tables of the names that they gave. Contracts
/// see what the lines say.
#[derive(Drop)]
pub struct FuseReader {
    state: FuseState,
    given: GivenNames,
}

impl Model for FuseReader {
    ghost use Rattle.std.specs.Prelude.{◌≡◌};
    ghost use Rattle.act1_fuses.specs.declared.form.FuseState.{FuseState};
    ghost use Rattle.act1_fuses.specs.Given.{given_of};

    ghost Value = { FuseState };

    ghost view = { λ reader. reader.state };

    ghost invariant = { λ reader. reader.given ≡ given_of reader.state.file };
}

// What a line of this form does to the state and to the names that lines gave.
fn take_form(
    alloc: Global,
    device: &Device,
    state: &mut FuseState,
    given: &mut GivenNames,
    line: FuseLine,
) -> Result<(), Stop<FuseKind>>
    requires { given.old ≡ given_of state.old.file }
    ensures takes { Takes (reading.step device.now state.old line) state.new result }
    ensures given { IfOk result (λ _. given.new ≡ given_of state.new.file) }
{
    let is_own = given.take(&state.file.clock, &line)?;
    step(alloc, device, state, line, is_own)
}

// What a line does to the state and to the names that lines gave.
fn take_line(
    alloc: Global,
    device: &Device,
    state: &mut FuseState,
    given: &mut GivenNames,
    line: &[u8],
) -> Result<(), Stop<FuseKind>>
    requires { given.old ≡ given_of state.old.file }
    ensures takes { Takes ((fuse_rules device.now).after state.old line.now) state.new result }
    ensures given { IfOk result (λ _. given.new ≡ given_of state.new.file) }
{
    if state.place == END {
        return Err(Stop::Fault(FuseKind::End));
    }
    match read_line(alloc, line)? {
        Some(line) => take_form(alloc, device, state, given, line),
        None => Err(Stop::Fault(FuseKind::Line)),
    }
}

impl FuseReader {
    /// No lines. The tables of the names hash by `seed`.
    pub fn new(alloc: Global, seed: HashSeed) -> Result<FuseReader, Memory>
        ensures { IfOk result (λ state. state ≡ first_state) }
    {
        let file = FuseFile {
            device: Name::new(alloc, b"")?,
            clock: None,
            ins: Items::new(alloc),
            outs: Items::new(alloc),
            starts: Items::new(alloc),
            sites: Items::new(alloc),
        };
        let state = FuseState {
            place: 0,
            last: Items::new(alloc),
            file,
        };
        let given = GivenNames::new(alloc, seed);
        Ok(FuseReader { state, given })
    }

    /// Whether the last line was `end`.
    pub fn has_ended(&self) -> bool
        ensures { result ≡ has_ended self.now }
    {
        self.state.place == END
    }

    /// What a line more does, which is given without its line feed: the lines with this one, or the least
    /// kind of what is wrong with it.
    pub fn after(
        self,
        alloc: Global,
        device: &Device,
        line: &[u8],
    ) -> Result<FuseReader, Stop<FuseKind>>
        ensures { Gives result ((fuse_rules device.now).after self line.now) }
    {
        let FuseReader {
            mut state,
            mut given,
        } = self;
        match take_line(alloc, device, &mut state, &mut given, line) {
            Ok(()) => Ok(FuseReader { state, given }),
            Err(stop) => Err(stop),
        }
    }

    /// The file that the lines say.
    pub fn into_file(self) -> FuseFile
        ensures { result ≡ self.file }
    {
        self.state.file
    }
}
