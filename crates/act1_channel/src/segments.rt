ghost use Rattle.std.specs.Prelude.{◌≡◌, ◌↔◌, IsTrue, ◌<◌, length, count_by, nat_le};
ghost use Rattle.act1_channel.specs.Assignment.{choice_at, connection_at, first_segment, last_segment, segment_at, segments, DoClash, IsAllowed};
ghost use Rattle.act1_channel.specs.AssignmentSteps.{DoEndsMeet};

use crate::problem::Problem;

impl Problem {
    /// How many segments of a track the connection overlaps. It takes no memory.
    pub fn segments(&self, c: u16, t: u8) -> u8
        requires connection { c < length self.now.connections }
        requires track { t < length self.now.tracks }
        ensures { result ≡ segments self.now c t }
    {
        self.segment_count(usize::from(c), usize::from(t)) as u8
    }

    /// Whether the connection may take the track: it overlaps at most `k` of its segments. It takes
    /// no memory.
    pub fn allowed(&self, c: u16, t: u8) -> bool
        requires connection { c < length self.now.connections }
        requires track { t < length self.now.tracks }
        ensures { IsTrue result ↔ IsAllowed self.now (choice_at c t) }
    {
        self.may_take(usize::from(c), usize::from(t))
    }

    /// Whether the connections overlap a common segment of the track. It takes no memory.
    pub fn clash(&self, c: u16, d: u16, t: u8) -> bool
        requires first { c < length self.now.connections }
        requires second { d < length self.now.connections }
        requires track { t < length self.now.tracks }
        ensures { IsTrue result ↔ DoClash self.now c d t }
    {
        self.do_clash(usize::from(c), usize::from(d), usize::from(t))
    }

    // Whether the connection may take the track.
    pub(crate) fn may_take(&self, c: usize, t: usize) -> bool
        requires connection { c < length self.now.connections }
        requires track { t < length self.now.tracks }
        ensures { IsTrue result ↔ IsAllowed self.now (choice_at c t) }
    {
        self.segment_count(c, t) <= usize::from(self.k)
    }

    // Whether the connections overlap a common segment of the track, by the segments of their ends.
    pub(crate) fn do_clash(&self, c: usize, d: usize, t: usize) -> bool
        requires first { c < length self.now.connections }
        requires second { d < length self.now.connections }
        requires track { t < length self.now.tracks }
        ensures { IsTrue result ↔ DoEndsMeet self.now c d t }
    {
        self.first(c, t) <= self.last(d, t) && self.first(d, t) <= self.last(c, t)
    }

    // How many segments of the track the connection overlaps.
    fn segment_count(&self, c: usize, t: usize) -> usize
        requires connection { c < length self.now.connections }
        requires track { t < length self.now.tracks }
        ensures count { result ≡ segments self.now c t }
    {
        self.last(c, t) + 1 - self.first(c, t)
    }

    // The segment of the connection's first column.
    fn first(&self, c: usize, t: usize) -> usize
        requires connection { c < length self.now.connections }
        requires track { t < length self.now.tracks }
        ensures { result ≡ first_segment self.now c t }
    {
        self.segment_at(t, self.connections.as_slice()[c].left)
    }

    // The segment of the connection's last column.
    fn last(&self, c: usize, t: usize) -> usize
        requires connection { c < length self.now.connections }
        requires track { t < length self.now.tracks }
        ensures { result ≡ last_segment self.now c t }
    {
        self.segment_at(t, self.connections.as_slice()[c].right)
    }

    // The segment of a column.
    fn segment_at(&self, t: usize, column: u8) -> usize
        requires { t < length self.now.tracks }
        ensures { result ≡ segment_at self.now t column }
    {
        count_up_to(self.tracks.as_slice()[t].as_slice(), column)
    }
}

// How many of some breaks are at most the column.
fn count_up_to(breaks: &[u8], column: u8) -> usize
    ensures { result ≡ count_by (λ b. nat_le b column) breaks.now }
{
    breaks.iter().filter(|b| **b <= column).count()
}
