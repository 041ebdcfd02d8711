ghost use Rattle.std.specs.Prelude.{◌≡◌};
ghost use Rattle.act1_refute.specs.StatusSteps.{with_part};

use act1_channel::Choice;

/// What the facts leave of a clause.
#[derive(Clone, Copy)]
pub enum Status {
    /// All its parts are false.
    Contradicted,
    /// All its parts are false but the one with this choice, which is undecided.
    Unit(Choice),
    /// Neither, or there is no such clause.
    Open,
}

// The status with one part more: that the choice is taken, or that it is refused. `known` is what
// the facts tell of the choice.
pub(crate) fn with_part(status: Status, choice: Choice, truth: bool, known: Option<bool>) -> Status
    ensures { result ≡ with_part status choice truth known }
{
    match known {
        Some(true) => { if truth { Status::Open } else { status } }
        Some(false) => { if truth { status } else { Status::Open } }
        None => match status {
            Status::Contradicted => Status::Unit(choice),
            Status::Unit(_) => Status::Open,
            Status::Open => Status::Open,
        },
    }
}
