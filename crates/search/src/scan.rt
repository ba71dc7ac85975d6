ghost use Rattle.std.specs.Prelude.{◌≡◌, ◌<◌, ◌≤◌, pos, ◌≤ℤ◌};
ghost use Rattle.search.specs.Residuals.{scene, net, step, Open, room_at};
ghost use Rattle.search.specs.Trees.{count, at, Sized, Seen, Tree, Quiet, Followed, FollowedFrom, Explored, Went, Found};

use super::search::Search;
use graph::Residual;

impl Search {
    // That it is a tree of the graph it is given each part asks anew: a search alone does not know its graph.

    // An open place that was not reached yet is reached by an arc with room.
    fn extend(&mut self, residual: &Residual, arc: usize, room: u32)
        requires tree { Tree (scene residual.now) self.old }
        requires arc { arc < (net (scene residual.now)).arcs }
        requires from { Seen self.old ((net (scene residual.now)).arc arc).from }
        requires room { room ≡ room_at (scene residual.now) arc }
        requires some { 1 ≤ room }
        requires to { Open (scene residual.now) ((net (scene residual.now)).arc arc).to }
        requires new { Seen self.old ((net (scene residual.now)).arc arc).to → ⊥ }
        ensures went { Went (scene residual.now) self.old self.new }
        ensures seen { Seen self.new ((net (scene residual.now)).arc arc).to }
        ensures quiet { Quiet (scene residual.now) self.old → step (scene residual.now) ((net (scene residual.now)).arc arc).to ≤ℤ pos 0 → Quiet (scene residual.now) self.new }
    {
        let amount = room.min(self.amount_to(residual.graph.tail(arc)));
        self.add(residual.graph.head(arc), arc, amount);
    }

    // Looks along an arc from a place that was reached: where it has room and leads to an open place that was not, that
    // place is reached too. The answer is that place if it is a sink.
    fn look(&mut self, residual: &Residual, arc: usize) -> Option<usize>
        requires tree { Tree (scene residual.now) self.old }
        requires arc { arc < (net (scene residual.now)).arcs }
        requires from { Seen self.old ((net (scene residual.now)).arc arc).from }
        requires quiet { Quiet (scene residual.now) self.old }
        ensures went { Went (scene residual.now) self.old self.new }
        ensures found { Found (scene residual.now) self.new (Followed (scene residual.now) self.new arc) result }
    {
        let room = residual.graph.room(residual.flows, arc);
        let place = residual.graph.head(arc);
        if room == 0 || !residual.is_open(place) || self.seen(place) {
            return None;
        }
        self.extend(residual, arc, room);
        if residual.is_sink(place) {
            return Some(place);
        }
        None
    }

    // Looks along every arc of a place that was reached, from the last to the first, up to the first sink.
    fn scan(&mut self, residual: &Residual, place: usize) -> Option<usize>
        requires tree { Tree (scene residual.now) self.old }
        requires quiet { Quiet (scene residual.now) self.old }
        requires inside { place < (scene residual.now).places }
        requires seen { Seen self.old place }
        ensures went { Went (scene residual.now) self.old self.new }
        ensures found { Found (scene residual.now) self.new (FollowedFrom (scene residual.now) self.new place) result }
    {
        for arc in residual.graph.leaving(place).iter().rev() {
            if let Some(sink) = self.look(residual, *arc as usize) {
                return Some(sink);
            }
        }
        None
    }

    // A search begins with its root alone, to which any amount can be sent. No arc led there, and nobody follows the 0 in
    // its record: an `Option` in each would be no plainer, for the sake of one.
    fn begin(&mut self, residual: &Residual, root: usize)
        requires sized { Sized (scene residual.now).places self.old }
        requires inside { root < (scene residual.now).places }
        requires from { Open (scene residual.now) root }
        ensures tree { Tree (scene residual.now) self.new }
        ensures one { count self.new ≡ 1 }
        ensures first { at self.new 0 ≡ root }
    {
        self.clear();
        self.add(root, 0, u32::MAX);
    }

    // Searches from a source, nearest places first, and stops at the first sink. Where it finds none, no arc with room
    // leads from what it reached to another open place.
    pub fn run(&mut self, residual: &Residual, root: usize) -> Option<usize>
        requires sized { Sized (scene residual.now).places self.old }
        requires inside { root < (scene residual.now).places }
        requires from { Open (scene residual.now) root }
        requires source { step (scene residual.now) root ≤ℤ pos 0 }
        ensures tree { Tree (scene residual.now) self.new }
        ensures first { at self.new 0 ≡ root }
        ensures found { Found (scene residual.now) self.new (Explored (scene residual.now) self.new (count self.new)) result }
    {
        self.begin(residual, root);
        // Counted by hand: what was reached grows while it is gone through, which no iterator allows.
        let mut done = 0;
        while done < self.reached().len() {
            let place = self.reached()[done].place as usize;
            if let Some(sink) = self.scan(residual, place) {
                return Some(sink);
            }
            done += 1;
        }
        None
    }
}
