//! A write is installed by one exchange of its row's head; a reader finds a row's number by its
//! name, and follows the row's numbers from its head down to the place that it reads.
#![tactic(auto)]

mod at;
mod finding;
mod following;
mod install;
mod installing;
mod path_end;
mod values;

pub use at::At;
pub use finding::find;
pub use following::follow_path;
pub use install::Install;
pub use installing::try_install;
pub use path_end::PathEnd;
pub use values::value_at;
