// Refusal 9, "wrong moment", and the other checks that ask of the numbers alone.
ghost use Rattle.std.specs.Prelude.{◌≡◌, ◌&&◌, [], ◌*◌, not, ltb, eqb};
ghost use Rattle.engine.specs.Advance.{wrong_for_advance};
ghost use Rattle.engine.specs.Claim.{no_such_claim};
ghost use Rattle.engine.specs.Counting.{some_below};
ghost use Rattle.engine.specs.Lent.{joined};
ghost use Rattle.engine.specs.LawsLent.{position_by};
ghost use Rattle.engine.specs.Moment.{places_still, not_running, not_planning};
ghost use Rattle.engine.specs.Open.{wrong_for_opening};
ghost use Rattle.engine.specs.Place.{wrong_for_place};
ghost use Rattle.engine.specs.Seal.{wrong_for_seal};

use crate::lent::Numbers;

impl Numbers {
    // A partition that has placed so many has not placed all.
    fn places_still(self, p: usize, placed: u8) -> bool
        ensures { result ≡ (ltb p self.partitions && not (eqb placed self.size)) }
    {
        (p < usize::from(self.partitions)) & (placed != self.size)
    }

    // "Planning lasts until every partition has placed all n."
    fn is_planning(self) -> bool
        ensures { result ≡ some_below 8 (places_still (joined self [] [])) }
    {
        self.placed
            .iter()
            .enumerate()
            .any(|(p, &placed)| self.places_still(p, placed))
    }

    // "claim or advance before planning ends or with none open"
    #[tactic(auto, unfolding(crate::specs::Moment::not_running))]
    pub(crate) fn is_not_running(self) -> bool
        ensures { result ≡ not_running (joined self [] []) }
    {
        (self.size == 0) | self.is_planning()
    }

    // "place outside planning"
    #[tactic(auto, unfolding(crate::specs::Moment::not_planning))]
    pub(crate) fn is_not_planning(self) -> bool
        ensures { result ≡ not_planning (joined self [] []) }
    {
        (self.size == 0) | !self.is_planning()
    }

    // "no such .. worker or transaction"
    pub(crate) fn has_no_such_claim(self, w: usize, i: usize) -> bool
        ensures { result ≡ no_such_claim (joined self [] []) w i }
    {
        (usize::from(self.workers) <= w) | (usize::from(self.size) <= i)
    }

    // "a lent table's length is wrong", of those that a place step is lent
    pub(crate) fn is_wrong_for_place(self, newest: usize, versions: usize) -> bool
        ensures { result ≡ wrong_for_place (joined self [] []) newest versions }
    {
        (newest != usize::from(self.records)) | (versions != 256)
    }

    // The same of those that an advance is lent.
    pub(crate) fn is_wrong_for_advance(
        self,
        records: usize,
        newest: usize,
        versions: usize,
        results: usize,
    ) -> bool
        ensures { result ≡ wrong_for_advance (joined self [] []) records newest versions results }
    {
        (records != usize::from(self.records))
            | self.is_wrong_for_place(newest, versions)
            | (results != 256)
    }

    // The same of those that a seal is lent.
    pub(crate) fn is_wrong_for_seal(self, records: usize, newest: usize, versions: usize) -> bool
        ensures { result ≡ wrong_for_seal (joined self [] []) records newest versions }
    {
        (records != usize::from(self.records)) | self.is_wrong_for_place(newest, versions)
    }

    // The same of those that an opening is lent.
    pub(crate) fn is_wrong_for_opening(self, newest: usize, versions: usize, results: usize) -> bool
        ensures { result ≡ wrong_for_opening (joined self [] []) newest versions results }
    {
        self.is_wrong_for_place(newest, versions) | (results != 256)
    }

    // The slots of the batch: 4n.
    pub(crate) fn slots(self) -> usize
        ensures { result ≡ 4 * self.size }
    {
        4 * usize::from(self.size)
    }

    // "Transaction i of a batch (from 0) has position F + i"; past the last position it is that one.
    pub(crate) fn position_of(self, i: u8) -> u64
        ensures { result ≡ position_by self i }
    {
        self.next.0.saturating_add(u64::from(i))
    }
}
