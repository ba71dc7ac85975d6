ghost use Rattle.std.specs.Prelude.{◌≡◌, ◌+◌, ◌-◌, ◌*◌, ◌<◌, ◌≤◌, min, length, ◌≢◌, slice_index};
ghost use Rattle.theory.specs.Levels.{partner as other, room_of};
ghost use Rattle.field.specs.Limits.{most_price};
ghost use Rattle.field.specs.Given.{flows_in};
ghost use Rattle.graph.specs.Flowed.{graph_net, WithinPrices, pushed, Pushed};

use super::graph::Graph;

impl Graph<'_> {
    // That an arc is one of the graph each method asks anew: a number alone does not know its graph.

    // The other direction of an arc's side.
    fn partner(&self, arc: usize) -> usize
        requires { arc < length self.now.arcs.now }
        ensures value { result ≡ other arc }
        ensures within { result < length self.now.arcs.now }
        ensures apart { result ≢ arc }
    {
        2 * (arc / 2) + (1 - arc % 2)
    }

    // The place that an arc leaves.
    pub fn tail(&self, arc: usize) -> usize
        requires { arc < length self.now.arcs.now }
        ensures place { result ≡ ((graph_net self.now).arc arc).from }
        ensures inside { result < self.now.places }
    {
        self.arcs[arc].end as usize
    }

    // The place that it leads to.
    pub fn head(&self, arc: usize) -> usize
        requires { arc < length self.now.arcs.now }
        ensures place { result ≡ ((graph_net self.now).arc arc).to }
        ensures inside { result < self.now.places }
    {
        self.arcs[self.partner(arc)].end as usize
    }

    // The room of an arc: what is left of its price, and what its partner carries.
    pub fn room(&self, flows: &[u32], arc: usize) -> u32
        requires arc { arc < length self.now.arcs.now }
        requires each { length flows.now ≡ length self.now.arcs.now }
        requires within { WithinPrices (graph_net self.now) (flows_in flows.now) }
        ensures answer { result ≡ room_of (graph_net self.now) (flows_in flows.now) arc }
        ensures small { result ≤ 2 * most_price }
    {
        room_left(self.arcs[arc].price, flows[arc], flows[self.partner(arc)])
    }

    // Sends an amount along an arc that has room for it: first it is taken back from what its partner carries, then the
    // rest is added to what it carries itself.
    pub fn push(&self, flows: &mut [u32], arc: usize, amount: u32)
        requires arc { arc < length self.now.arcs.now }
        requires each { length flows.old ≡ length self.now.arcs.now }
        requires within { WithinPrices (graph_net self.now) (flows_in flows.old) }
        requires amount { amount ≤ room_of (graph_net self.now) (flows_in flows.old) arc }
        ensures { Pushed (graph_net self.now) (flows_in flows.old) (flows_in flows.new) arc amount }
    {
        send(flows, arc, self.partner(arc), amount);
    }
}

// What is left of a price by a flow, and what flows back.
fn room_left(price: u32, flow: u32, back: u32) -> u32
    requires within { flow ≤ price }
    requires price { price ≤ most_price }
    requires back { back ≤ most_price }
    ensures { result ≡ (price - flow) + back }
{
    (price - flow) + back
}

// An amount more is carried by an arc: what flows back is taken off first.
fn send(flows: &mut [u32], arc: usize, back: usize, amount: u32)
    requires arc { arc < length flows.old }
    requires back { back < length flows.old }
    requires apart { back ≢ arc }
    requires room { slice_index flows.old arc + (amount - min amount (slice_index flows.old back)) ≤ most_price }
    ensures { flows.new ≡ pushed flows.old arc back (min amount (slice_index flows.old back)) amount }
{
    let taken = amount.min(flows[back]);
    flows[back] -= taken;
    flows[arc] += amount - taken;
}
