use super::room::Room;
use field::FieldView;
use graph::{Arc, FEW_ARCS, FEW_STARTS, Graph, lay_graph};
use level::{Level, Task};
use search::Search;
use std::alloc::{AllocError, Global};

// A field with two values, and what is laid down before it is solved: its places, the step of each with no flows, and a
// search. All of it is lent, so that nothing of its size is moved. Solving it writes over the steps, so that they are as
// they are laid down is asked, and no invariant.
#[derive(Drop)]
pub(super) struct Work<'f, 'm> {
    pub field: FieldView<'f>,
    pub members: &'f [u32],
    pub steps: &'m mut [i64],
    pub search: &'m mut Search,
}

impl Work<'_, '_> {
    ghost use Rattle.std.specs.Prelude.{◌≡◌, ◌*◌, ◌≤◌, length, MatchResult};
    ghost use Rattle.field.specs.Viewed.{field_of};
    ghost use Rattle.graph.specs.Few.{few_places, few_sides};
    ghost use Rattle.graph.specs.Owned.{OfField};
    ghost use Rattle.choice.specs.Worked.{Ready, Roomy, owned_in};
    ghost use Rattle.choice.specs.Solved.{Solved};

    // Solves the field by its graph: no place is yes and nothing flows at first.
    fn solve(&mut self, graph: Graph, picture: &mut [u32], flows: &mut [u32])
        requires ready { Ready self.old }
        requires graph { OfField self.old.field (owned_in graph) }
        requires picture { length picture.old ≡ (field_of self.old.field).places }
        requires flows { length flows.old ≡ 2 * (field_of self.old.field).sides }
        ensures { Solved (field_of self.old.field) picture.new flows.new }
    {
        picture.fill(0);
        flows.fill(0);
        let task = Task {
            graph,
            group: 0,
            yes: 1,
        };
        let mut level = Level {
            task,
            flows,
            steps: &mut *self.steps,
            marks: picture,
            search: &mut *self.search,
        };
        level.run(self.members);
    }

    // Solves it with its graph in memory that is lent.
    fn solve_in(&mut self, room: Room, picture: &mut [u32], flows: &mut [u32])
        requires ready { Ready self.old }
        requires roomy { Roomy self.old.field room }
        requires picture { length picture.old ≡ (field_of self.old.field).places }
        requires flows { length flows.old ≡ 2 * (field_of self.old.field).sides }
        ensures { Solved (field_of self.old.field) picture.new flows.new }
    {
        let Room {
            arcs,
            starts,
            order,
        } = room;
        let field = self.field;
        lay_graph(&field, arcs, starts, order);
        let graph = Graph {
            places: field.places,
            arcs,
            starts,
            order,
        };
        self.solve(graph, picture, flows);
    }

    // A small field, with its graph on the stack: about 50 KiB.
    pub(super) fn solve_few(&mut self, picture: &mut [u32], flows: &mut [u32])
        requires ready { Ready self.old }
        requires places { (field_of self.old.field).places ≤ few_places }
        requires sides { (field_of self.old.field).sides ≤ few_sides }
        requires picture { length picture.old ≡ (field_of self.old.field).places }
        requires flows { length flows.old ≡ 2 * (field_of self.old.field).sides }
        ensures { Solved (field_of self.old.field) picture.new flows.new }
    {
        let count = flows.len();
        let mut arcs = [Arc::default(); FEW_ARCS];
        let mut starts = [0; FEW_STARTS];
        let mut order = [0; FEW_ARCS];
        let room = Room {
            arcs: &mut arcs[0..count],
            starts: &mut starts[0..self.field.places + 1],
            order: &mut order[0..count],
        };
        self.solve_in(room, picture, flows);
    }

    // Any field, with its graph in memory from the heap, all of which is there before anything lent is written.
    pub(super) fn solve_many(
        &mut self,
        heap: Global,
        picture: &mut [u32],
        flows: &mut [u32],
    ) -> Result<(), AllocError>
        requires ready { Ready self.old }
        requires picture { length picture.old ≡ (field_of self.old.field).places }
        requires flows { length flows.old ≡ 2 * (field_of self.old.field).sides }
        ensures { MatchResult result (λ _. Solved (field_of self.old.field) picture.new flows.new) (λ _. (picture.new ≡ picture.old) × (flows.new ≡ flows.old)) }
    {
        let mut arcs = vec![in heap; Arc::default(); flows.len()]?;
        let mut starts = vec![in heap; 0u32; self.field.places + 1]?;
        let mut order = vec![in heap; 0u32; flows.len()]?;
        let room = Room {
            arcs: arcs.as_mut_slice(),
            starts: starts.as_mut_slice(),
            order: order.as_mut_slice(),
        };
        self.solve_in(room, picture, flows);
        Ok(())
    }
}
