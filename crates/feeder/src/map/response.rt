// The response between two buses of a map, by going up their lines until they meet.
ghost use Rattle.std.specs.Prelude.{◌≡◌, ◌≤◌, ◌&&◌, length, nat_le};
ghost use Rattle.feeder.specs.Feeder.{response, distance};
ghost use Rattle.feeder.specs.View.{lines_of, asked};
ghost use Rattle.feeder.specs.Laws.{WaysMeet, ResponsesAreSymmetric, ResponsesAreAtMostDistances, ResponsesTellWays};

use crate::map::Map;

impl Map {
    /// The response of bus n to an inverter at bus m: the resistance that their ways share.
    /// The substation, bus 0, shares none.
    #[tactic(auto, using(crate::proofs::Laws::ways_meet, crate::proofs::Laws::responses_are_symmetric, crate::proofs::Laws::responses_are_at_most_distances, crate::proofs::Laws::responses_tell_ways))]
    pub fn response(&self, n: usize, m: usize) -> Option<u32>
        ensures value { result ≡ asked (nat_le n (length (lines_of self.now)) && nat_le m (length (lines_of self.now))) (response (lines_of self.now) n m) }
        ensures meets { WaysMeet }
        ensures symmetric { ResponsesAreSymmetric }
        ensures limited { ResponsesAreAtMostDistances }
        ensures telling { ResponsesTellWays }
    {
        if n > self.buses() || m > self.buses() {
            return None;
        }
        let meet = self.meet(n, m);
        Some(self.distances[meet])
    }

    // Where two ways meet: the farther bus goes up its line until both are one.
    fn meet(&self, n: usize, m: usize) -> usize
        requires left { n ≤ length (lines_of self.now) }
        requires right { m ≤ length (lines_of self.now) }
        ensures within { result ≤ length (lines_of self.now) }
        ensures far { response (lines_of self.now) n m ≡ distance (lines_of self.now) result }
    {
        let lines = self.lines();
        let distances = self.distances.as_slice();
        let mut a = n;
        let mut b = m;
        while a != b {
            if distances[a] < distances[b] {
                b = lines[b - 1].parent;
            } else {
                a = lines[a - 1].parent;
            }
        }
        a
    }
}
