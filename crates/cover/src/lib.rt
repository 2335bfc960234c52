//! Whether one graph stands for all that another one stands for.
#![tactic(auto)]

mod alike;
mod apart;
mod cells;
mod content;
mod covering;
mod edges;
mod fits;
mod found;
mod kept;
pub mod laws;
mod live;
mod node;
mod quick;
mod roots;
mod tables;
mod worklist;

pub use cells::{Cell, constant_cells, fingerprint};
pub use content::Content;
pub use covering::covers;
pub use quick::{live_count, may_cover};
