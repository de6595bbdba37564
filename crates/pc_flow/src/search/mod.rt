//! The search for steps with residual capacity: from the events that have a label, others are labelled along activities
//! where more can flow and against those where less can (Fulkerson 1961).

mod growing;
mod labelling;
mod raising;
mod visiting;
mod way;

pub use labelling::Labelling;
pub use way::Way;
