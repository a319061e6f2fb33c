//! What is seen of an array, and its texts: as Prometheus reads it, as JSON, and in a line for each thing that is wrong.
#![tactic(auto)]

mod as_json;
mod exposition;
pub mod laws;
mod line;
mod made;
mod metric_names;
mod troubles;
mod view;

pub use as_json::{kept, status};
pub use exposition::metrics;
pub use line::{Amount, Label, put_help, put_sample, put_type};
pub use made::{failures, named, path, refusals, session, spelled};
pub use troubles::{
    Signs, Trouble, degraded, failure_views, health, health_words, problems, trouble_tallies,
};
pub use view::{
    ArrayView, Commands, Controller, FailureView, NamedCount, PathView, Registration, SessionView,
    UnitView, state_words,
};
