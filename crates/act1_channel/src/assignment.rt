ghost use Rattle.std.specs.Prelude.{◌≡◌, ◌↔◌, IsTrue, ◌<◌, length};
ghost use Rattle.act1_channel.specs.Assignment.{choice_at, AreAllowed, AreApart, Assigns, IsAllowed};
ghost use Rattle.act1_channel.specs.AssignmentSteps.{DoMeet};

use crate::problem::Problem;

impl Problem {
    /// Whether the tracks are an assignment: one for each connection, of whose segments it overlaps
    /// at most `k`, so that no two connections on one track overlap a common segment (Greene and
    /// others). It is false where there are more or fewer tracks than connections, and where a track
    /// isn't there. It takes no memory.
    pub fn fits(&self, tracks: &[u16]) -> bool
        ensures { IsTrue result ↔ Assigns self.now tracks.now }
    {
        if tracks.len() != self.connections.len() {
            return false;
        }
        self.are_allowed(tracks) && self.are_apart(tracks)
    }

    // Whether each connection may take its track.
    fn are_allowed(&self, tracks: &[u16]) -> bool
        requires { length tracks.now ≡ length self.now.connections }
        ensures { IsTrue result ↔ AreAllowed self.now tracks.now }
    {
        for (c, track) in tracks.iter().enumerate() {
            if !self.is_allowed(c, usize::from(*track)) {
                return false;
            }
        }
        true
    }

    // Whether the track is there and the connection may take it.
    fn is_allowed(&self, c: usize, t: usize) -> bool
        requires { c < length self.now.connections }
        ensures { IsTrue result ↔ IsAllowed self.now (choice_at c t) }
    {
        t < self.tracks.len() && self.may_take(c, t)
    }

    // Whether no two connections on one track clash there.
    fn are_apart(&self, tracks: &[u16]) -> bool
        requires each { length tracks.now ≡ length self.now.connections }
        requires allowed { AreAllowed self.now tracks.now }
        ensures { IsTrue result ↔ AreApart self.now tracks.now }
    {
        for d in 0..tracks.len() {
            for c in 0..d {
                if self.meet(tracks, c, d) {
                    return false;
                }
            }
        }
        true
    }

    // Whether two connections have one track and clash there.
    fn meet(&self, tracks: &[u16], c: usize, d: usize) -> bool
        requires each { length tracks.now ≡ length self.now.connections }
        requires allowed { AreAllowed self.now tracks.now }
        requires first { c < length tracks.now }
        requires second { d < length tracks.now }
        ensures { IsTrue result ↔ DoMeet self.now tracks.now c d }
    {
        tracks[c] == tracks[d] && self.do_clash(c, d, usize::from(tracks[d]))
    }
}
