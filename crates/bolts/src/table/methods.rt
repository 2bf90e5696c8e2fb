// Making a table, placing and lifting bolts, and reading it.
ghost use Rattle.std.specs.Prelude.{◌≡◌, ◌+◌, ◌-◌, ◌≤◌, true, length, is_ok, MatchOption, if◌then◌else◌};
ghost use Rattle.bolts.specs.Tables.{held, reaches, Made};
ghost use Rattle.bolts.specs.Bolts.{placed, lifted};
ghost use Rattle.bolts.specs.Asked.{first_no};
ghost use Rattle.bolts.specs.Loads.{total_load};
ghost use Rattle.bolts.specs.Placing.{asked_of_place, asked_of_lift, Joined, Parted};
ghost use Rattle.bolts.specs.Neighbours.{Nearest, IsGap, Nearer};

use crate::bolt::{Bolt, Direction};
use crate::fault::Fault;
use crate::refusal::Refusal;
use crate::table::BoltTable;
use crate::table::places::{find, is_clear, load_sum, slot};
use std::alloc::Global;

// The most bolts that a table holds.
const MOST_BOLTS: usize = 16;

// The farthest that the last anchor lies from the first, in tenths.
const MOST_REACH: u32 = 27_500;

impl BoltTable {
    // An empty table for a channel whose last anchor lies at `reach`. Up to 27,500 tenths only memory can be wanting.
    pub fn new(heap: Global, reach: u32) -> Result<BoltTable, Fault>
        ensures { Made reach result }
    {
        if reach > MOST_REACH {
            return Err(Refusal::Opening.into());
        }
        let bolts = Vec::with_capacity(heap, MOST_BOLTS)?;
        Ok(BoltTable { reach, bolts })
    }

    // How many bolts there are.
    pub fn len(&self) -> usize
        ensures value { result ≡ length (held self.now) }
        ensures few { result ≤ 16 }
    {
        self.bolts.len()
    }

    // The bolts, in rising position.
    pub fn bolts(&self) -> &[Bolt]
        ensures { result.now ≡ held self.now }
    {
        self.bolts.as_slice()
    }

    // Adds a bolt by position, or says why not.
    pub fn place(&mut self, bolt: Bolt) -> Result<(), Refusal>
        ensures answer { result ≡ first_no (asked_of_place (reaches self.old) (held self.old) bolt) }
        ensures after { held self.new ≡ (if is_ok result then placed bolt (held self.old) else held self.old) }
        ensures reach { reaches self.new ≡ reaches self.old }
        ensures joined { is_ok result ≡ true → Joined bolt (held self.old) (held self.new) }
    {
        if bolt.position > self.reach {
            return Err(Refusal::Position);
        }
        if !bolt.is_loaded() {
            return Err(Refusal::Loads);
        }
        if self.len() >= MOST_BOLTS {
            return Err(Refusal::Full);
        }
        if !is_clear(&self.bolts, bolt.position) {
            return Err(Refusal::Near);
        }
        let i = slot(&self.bolts, bolt.position);
        self.bolts.insert(i, bolt).unwrap();
        Ok(())
    }

    // Takes out the bolt at a position, or says that there is none.
    pub fn lift(&mut self, position: u32) -> Result<(), Refusal>
        ensures answer { result ≡ first_no (asked_of_lift (held self.old) position) }
        ensures after { held self.new ≡ (if is_ok result then lifted position (held self.old) else held self.old) }
        ensures reach { reaches self.new ≡ reaches self.old }
        ensures parted { is_ok result ≡ true → Parted position (held self.old) (held self.new) }
    {
        let i = find(&self.bolts, position).ok_or(Refusal::NoBolt)?;
        let _ = self.bolts.remove(i);
        Ok(())
    }

    // How far the k-th bolt, from 0, lies from the nearest other one, in tenths. None where there is no k-th bolt or no
    // other one.
    pub fn nearest(&self, k: usize) -> Option<u32>
        ensures { Nearest (held self.now) k result }
    {
        nearer(self.gap_before(k), self.gap_after(k))
    }

    // How far the k-th bolt lies from the one before it; none for the first.
    fn gap_before(&self, k: usize) -> Option<u32>
        ensures { MatchOption result (1 ≤ k → length (held self.now) ≤ k) (λ d. (1 ≤ k) × IsGap (held self.now) (k - 1) d) }
    {
        self.gap_after(k.checked_sub(1)?)
    }

    // How far the k-th bolt lies from the next; none for the last.
    fn gap_after(&self, k: usize) -> Option<u32>
        ensures { MatchOption result (length (held self.now) ≤ k + 1) (λ d. IsGap (held self.now) k d) }
    {
        let bolt = self.bolts.get(k)?;
        let next = self.bolts.get(k + 1)?;
        Some(next.position - bolt.position)
    }

    // The sum of the bolts' loads in a direction, in N.
    #[tactic(auto, using(crate::proofs::Bounds::table_load))]
    pub fn total_load(&self, direction: Direction) -> u64
        ensures value { result ≡ total_load direction (held self.now) }
        ensures bound { result ≤ 3200000 }
    {
        load_sum(self.bolts(), direction)
    }
}

// The smaller of two distances, or the one that there is.
fn nearer(before: Option<u32>, after: Option<u32>) -> Option<u32>
    ensures { Nearer before after result }
{
    match (before, after) {
        (Some(before), Some(after)) => Some(before.min(after)),
        (before, after) => before.or(after),
    }
}
