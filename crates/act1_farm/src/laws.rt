ghost use Rattle.act1_farm.specs.Laws.{DoneStays, EachHasOneState, StoriesAreAccepted, TakenByUsable};

/// The law of states: whatever events come, each job is in one state.
pub fn each_has_one_state()
    ensures { EachHasOneState }
{}

/// The law of taking: a job is taken only by a usable answer.
pub fn taken_by_usable()
    ensures { TakenByUsable }
{}

/// The law of ends: a job that is taken or own stays so.
pub fn done_stays()
    ensures { DoneStays }
{}

/// The law of stories: the events of a story are accepted by a new farm one after the other, and leave the job of each
/// problem with connections taken or own.
pub fn stories_are_accepted()
    ensures { StoriesAreAccepted }
{}
