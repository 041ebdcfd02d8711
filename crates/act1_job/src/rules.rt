ghost use Rattle.std.specs.Prelude.{◌≡◌};
ghost use Rattle.act1_channel.specs.Ranges.{is_within, is_connection};
ghost use Rattle.act1_job.specs.Jobs.{are_breaks};
ghost use Rattle.act1_job.specs.Steps.{takes_track, takes_connection};

use crate::draft::Draft;
use act1_channel::Connection;

// Whether the number lies between the two.
pub(crate) fn is_within(low: u64, high: u64, n: u64) -> bool
    ensures { result ≡ is_within low high n }
{
    low <= n && n <= high
}

// Whether they are the breaks of a track.
fn are_breaks(columns: u8, breaks: &[u8]) -> bool
    ensures { result ≡ are_breaks columns breaks.now }
{
    let mut before = 0;
    for b in breaks {
        if *b <= before || *b >= columns {
            return false;
        }
        before = *b;
    }
    true
}

// Whether the connection lies within the columns.
fn is_connection(columns: u8, connection: Connection) -> bool
    ensures { result ≡ is_connection columns connection }
{
    connection.left <= connection.right && connection.right < columns
}

// Whether a track with these breaks may follow.
pub(crate) fn takes_track(draft: &Draft, breaks: &[u8]) -> bool
    ensures { result ≡ takes_track draft.now breaks.now }
{
    draft.connections.is_empty() && draft.tracks.len() < 64 && are_breaks(draft.columns, breaks)
}

// Whether the connection may follow.
pub(crate) fn takes_connection(draft: &Draft, connection: Connection) -> bool
    ensures { result ≡ takes_connection draft.now connection }
{
    draft.tracks.len() > 0
        && draft.connections.len() < 8192
        && is_connection(draft.columns, connection)
}
