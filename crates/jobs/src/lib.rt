//! Jobs, sums and products, that worker threads do on one executor: how lists of them are written, what came back of
//! them, and how their answers are written.
#![tactic(auto)]

mod brought;
mod desk;
mod errors;
mod gate;
mod gathered;
mod job;
mod parser;
mod place;
mod printer;
mod progress;
mod results;
mod running;
mod site;
mod site_desk;
mod work;
mod worker;

pub use brought::Brought;
pub use desk::{Awaits, Desk};
pub use errors::JobsError;
pub use gate::{Gate, Open};
pub use gathered::gather;
pub use job::{Answer, Job, LARGEST_SUM, Solved, product};
pub use parser::parse;
pub use place::{JobPlace, JobSite, Labor, Workplace};
pub use printer::print;
pub use progress::Progress;
pub use results::{Back, Results};
pub use running::run_jobs;
pub use site::{JobRealm, JobWaker, Site};
pub use site_desk::SiteDesk;
pub use text_lines::ParseError;
pub use work::Work;
pub use worker::Worker;
