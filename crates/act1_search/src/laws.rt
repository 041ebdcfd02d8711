ghost use Rattle.act1_search.specs.Exact.{AssignmentsFit, SpendingIsExact};
ghost use Rattle.act1_search.specs.Laws.{AssumingAddsOne, ConflictsAreFew, ConflictsAreUnique, EndsAreLast, EndsAreUnique, LearningAddsOne, SpendingIsShort, StepsTellOneFact, VisitsTheSearch};

/// The law of one course: a channel has one search. Its conflict of a number has one list of choices, none
/// comes after its end, and it has one end.
pub fn searches_are_one()
    ensures conflicts { ConflictsAreUnique }
    ensures last { EndsAreLast }
    ensures ends { EndsAreUnique }
{}

/// The law of few conflicts: with T tracks and n connections a search has at most (1 + T)^n, and one with
/// choices has a smaller number.
pub fn conflicts_are_few()
    ensures few { ConflictsAreFew }
    ensures short { SpendingIsShort }
{}

/// The law of answers: no verdict is an answer where the conflict of the budget's number has choices, and the
/// tracks at which a search ends are an assignment.
pub fn answers_are_exact()
    ensures spent { SpendingIsExact }
    ensures fit { AssignmentsFit }
{}

/// The law of taking back: what takes the last choice back at each conflict meets the conflicts of the
/// search, which begins anew after each.
pub fn taking_back_is_the_search()
    ensures { VisitsTheSearch }
{}

/// The law of steps: whatever a watch did, its steps tell nothing but that a choice taken back is false after
/// the choices before it; assuming adds its choice to what stands, and taking back its refusal.
pub fn steps_tell_one_fact()
    ensures tell { StepsTellOneFact }
    ensures assuming { AssumingAddsOne }
    ensures learning { LearningAddsOne }
{}
