ghost use Rattle.act1_ample.specs.Laws.{AmplePlansRoute, ChannelsAreWide, EnoughIsNotSpent, NoConflicts, RoutesExist, WideHasAssignment, WideIsAnswered, WideIsAssigned, WideIsCalm, WidePlansRoute};

/// The law of wide devices: where there is, for each net of a legal plan, a long wire that spans all channels, and in
/// each channel an unbroken track, the rule of routes finds a wire for each net and channel, and each channel has an
/// unbroken track for each of its connections.
pub fn wide_devices_route()
    ensures routes { RoutesExist }
    ensures wide { ChannelsAreWide }
    ensures plans { WidePlansRoute }
{}

/// The law of ample devices: on a device that is ample for a netlist, a legal plan that has the netlist's inputs and at
/// most as many modules as it needs has routes, and each channel has an unbroken track for each of its connections.
pub fn ample_plans_route()
    ensures { AmplePlansRoute }
{}

/// The law of wide channels: where there is an unbroken track for each connection, no descent of the search ends in a
/// conflict. So the search has no conflicts, and is never refuted; and the channel has an assignment.
pub fn wide_is_calm()
    ensures calm { WideIsCalm }
    ensures conflicts { NoConflicts }
    ensures assigned { WideIsAssigned }
    ensures has { WideHasAssignment }
{}

/// The law of sure answers: whatever the budget, the search of a wide channel answers an assignment, or finds no memory;
/// and of any channel of n connections and T tracks it never answers that a budget of (1 + T)^n or more is spent.
pub fn answers_are_sure()
    ensures assigned { WideIsAnswered }
    ensures enough { EnoughIsNotSpent }
{}
