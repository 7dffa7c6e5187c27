#![tactic(auto)]

// How a point is written: as `now`, `S`, `S+`, `+S` or `S+T`, where S and T are texts of stamps.
pub mod forms;
pub mod marks;

pub use forms::{Form, read_point};
pub use marks::Mark;
