ghost use Rattle.act1_channel.specs.Laws.{AcceptedLogsRefute, SegmentsAreThoseBetween};

/// The law of segments: a connection overlaps a segment of a track exactly where it isn't before that
/// of its first column nor behind that of its last one.
pub fn segments_are_those_between()
    ensures { SegmentsAreThoseBetween }
{}

/// The law of refutations: a channel with an accepted log has no assignment.
pub fn accepted_logs_refute()
    ensures { AcceptedLogsRefute }
{}
