ghost use Rattle.std.specs.Prelude.{◌≡◌, ◌<◌, ◌≤◌, length, slice_set};
ghost use Rattle.field.specs.Limits.{most_places};
ghost use Rattle.search.specs.Standing.{Kept};

use super::reached::Reached;
use graph::FEW_PLACES;
use smallvec::SmallVec;
use std::alloc::{AllocError, Global};

// The places that a search has reached, in their order, and for each place where it stands among them. What stands at a
// place that was not reached is of no account: a place was reached exactly if it stands where its slot says. So no slot
// is cleared before a search, as a map would have to be. Up to 1,024 places need no memory from the heap.
#[derive(Drop)]
pub struct Search {
    reached: SmallVec<Reached, FEW_PLACES>,
    slots: SmallVec<u32, FEW_PLACES>,
    ghost kept: { Kept reached.items reached.capacity slots.items },
}

impl Search {
    ghost use Rattle.std.specs.Prelude.{Decides, IfOk, IsOk, OnOk};
    ghost use Rattle.graph.specs.Few.{few_places};
    ghost use Rattle.graph.specs.Arcs.{most_arcs};
    ghost use Rattle.search.specs.Trees.{count, at, parent, reach, Sized, Fresh, Inline, Seen, Added};

    // A search of no place yet, in memory of the value itself alone. It is large: made where it stays, it is not moved.
    pub fn none(heap: Global) -> Search
        ensures { Fresh result }
    {
        Search {
            reached: SmallVec::new(heap),
            slots: SmallVec::new(heap),
        }
    }

    // A slot for each of so many places, and room to reach every one.
    pub fn make_room(&mut self, places: usize) -> Result<(), AllocError>
        requires { Fresh self.old }
        ensures sized { OnOk result (Sized places self.new) }
        ensures none { count self.new ≡ 0 }
        ensures small { places ≤ few_places → IsOk result }
        ensures inline { places ≤ few_places → Inline self.new }
    {
        self.reached.reserve_exact(places)?;
        self.slots.reserve_exact(places)?;
        self.slots.resize(places, 0)
    }

    // A search over so many places, which has reached none of them yet.
    pub fn new(heap: Global, places: usize) -> Result<Search, AllocError>
        ensures sized { IfOk result (λ s. Sized places s) }
        ensures none { IfOk result (λ s. count s ≡ 0) }
        ensures small { places ≤ few_places → IsOk result }
    {
        let mut search = Search::none(heap);
        search.make_room(places)?;
        Ok(search)
    }

    // The places that were reached, in their order, from the root on.
    pub fn reached(&self) -> &[Reached]
        ensures { result.now ≡ self.now.reached.items }
    {
        self.reached.as_slice()
    }

    // The place that a search began at.
    pub fn root(&self) -> usize
        requires { 0 < count self.now }
        ensures { result ≡ at self.now 0 }
    {
        self.reached[0].place as usize
    }

    // The arc that led to a place that was reached.
    pub fn arc_to(&self, place: usize) -> usize
        requires { Seen self.now place }
        ensures { result ≡ parent self.now place }
    {
        self.reached[self.slots[place] as usize].arc as usize
    }

    // How much can be sent from the root to a place that was reached.
    pub fn amount_to(&self, place: usize) -> u32
        requires { Seen self.now place }
        ensures { result ≡ reach self.now place }
    {
        self.reached[self.slots[place] as usize].amount
    }

    // Whether a place was reached: it stands where its slot says. A slot of an earlier search is seen through.
    pub(super) fn seen(&self, place: usize) -> bool
        requires { place < length self.now.slots.items }
        ensures { Decides result (Seen self.now place) }
    {
        let slot = self.slots[place] as usize;
        slot < self.reached.len() && self.reached[slot].place as usize == place
    }

    // Forgets what an earlier search reached, in no more steps than that search had.
    pub(super) fn clear(&mut self)
        ensures none { count self.new ≡ 0 }
        ensures slots { self.new.slots.items ≡ self.old.slots.items }
    {
        self.reached.clear();
    }

    // A place more, the arc that led there, and how much can be sent there.
    pub(super) fn add(&mut self, place: usize, arc: usize, amount: u32)
        requires place { place < length self.old.slots.items }
        requires few { length self.old.slots.items ≤ most_places }
        requires arc { arc < most_arcs }
        requires new { Seen self.old place → ⊥ }
        ensures { Added self.old self.new place arc amount }
    {
        settle(self.slots.as_mut_slice(), place, self.reached.len());
        self.reached.push_reserved(Reached {
            place: place as u32,
            arc: arc as u32,
            amount,
        });
    }
}

// Writes down where a place stands among those that were reached.
fn settle(slots: &mut [u32], place: usize, number: usize)
    requires few { length slots.old ≤ most_places }
    requires place { place < length slots.old }
    requires number { number < length slots.old }
    ensures { slots.new ≡ slice_set slots.old place number }
{
    slots[place] = number as u32;
}
