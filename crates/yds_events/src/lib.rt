//! Time as jobs cut it: the event points, which are the jobs' releases and deadlines, the stretches between neighbours of
//! them, and each job's window as a range of stretches.
//!
//! It stands on `yds_model` and its lemmas alone, and whoever serves jobs stretch by stretch stands on it. Its promise is that the event
//! points and the stretches are those of the model's definitions, and that a stretch is in a job's range exactly where it
//! lies in the job's window. A timeline has all this from one sort, and the jobs in order of deadline. The first release and
//! the last deadline take no sort.
#![tactic(auto)]

mod event_points;
mod first_and_last;
mod stretch;
mod timeline;
mod window;

pub use event_points::events;
pub use first_and_last::{first_release, horizon, last_deadline};
pub use stretch::{Stretch, stretches};
pub use timeline::Timeline;
pub use window::Window;
