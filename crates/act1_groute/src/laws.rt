ghost use Rattle.act1_groute.specs.Emitted.{EmittedIsOne};
ghost use Rattle.act1_groute.specs.Problems.{ProblemsFit};

/// The law of problems: the problem of each channel of a legal plan that is routed keeps the ranges of channel
/// problems, at most so many segments a connection for any number from 1 to 64.
pub fn problems_fit()
    ensures { ProblemsFit }
{}

/// The law of emission: the sites of a plan with tracks for its connections are one list.
pub fn emitted_is_one()
    ensures { EmittedIsOne }
{}
