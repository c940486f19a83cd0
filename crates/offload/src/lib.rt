//! Work that blocks, on threads of its own. Futures await its output, and others run meanwhile.
#![tactic(auto)]

mod answer;
mod errors;
mod offload;
mod piece;
mod run;
mod serving;
mod shared;
mod work;

pub use answer::Answer;
pub use errors::{RunError, TryRunError};
pub use offload::Offload;
pub use run::Run;
pub use serving::Served;
pub use work::Work;
