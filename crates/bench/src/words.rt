//! What the words of a command line name.
ghost use Rattle.std.specs.Prelude.{◌<◌, IfOk};

use workloads::{Fault, Workload};

/// What the words of a command line ask.
#[derive(Clone, Copy)]
pub enum Asked {
    /// To list the workloads.
    List,
    /// To run each at its usual size.
    All,
    /// To run one, with so many operations.
    One(Workload, u64),
    /// To run each with so many operations, and to say what they moved.
    Check(u64),
}

/// What these words ask.
pub fn read_words(words: &[String]) -> Result<Asked, Fault> {
    match words {
        [] => Ok(Asked::List),
        [word] if word.as_str() == "all" => Ok(Asked::All),
        [word] => {
            let workload = named(word)?;
            Ok(Asked::One(workload, workload.usual_ops()))
        }
        [word, count] if word.as_str() == "check" => Ok(Asked::Check(operations(count)?)),
        [word, count] => Ok(Asked::One(named(word)?, operations(count)?)),
        _ => Err(Fault::Usage),
    }
}

/// The workload of this name.
pub fn named(name: &str) -> Result<Workload, Fault> {
    Workload::named(name).ok_or(Fault::Usage)
}

/// A number of operations, which is above 0.
fn operations(word: &str) -> Result<u64, Fault>
    ensures { IfOk result (λ ops. 0 < ops) }
{
    match word.parse::<u64>() {
        Ok(0) | Err(_) => Err(Fault::Usage),
        Ok(ops) => Ok(ops),
    }
}
