// One level: flow is sent from places that want yes to places that want no, along arcs with room, until what is left
// shows the least cut.
#![tactic(auto)]

mod augment;
mod cut;
mod level;
mod task;

pub use level::Level;
pub use task::Task;
