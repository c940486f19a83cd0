ghost use Rattle.std.specs.Prelude.{◌≡◌, ◌*◌, ◌/◌, ◌<◌};
ghost use Rattle.std.specs.Duration.{as_nanos};

use std::fmt;
use std::time::Duration;

/// A line of what `bench` prints: the workload, the operations, the seconds, and the nanoseconds of one operation.
///
/// The seconds are cut off after three digits, and the nanoseconds after one.
#[derive(Clone, Copy)]
pub struct Line {
    pub name: &'static str,
    pub ops: u64,
    pub took: Duration,
}

/// The tenths of a nanosecond that one of so many operations took, cut off.
pub fn tenths_of_an_operation(took: Duration, ops: u64) -> u128
    requires { 0 < ops }
    ensures { result ≡ 10 * as_nanos took / ops }
{
    10 * took.as_nanos() / u128::from(ops)
}

impl fmt::Display for Line {
    fn fmt<W: fmt::Write>(&self, f: &mut fmt::Formatter<W>) -> fmt::Result {
        let tenths = tenths_of_an_operation(self.took, self.ops.max(1));
        write!(
            f,
            "{} {} {}.{:03} {}.{}",
            self.name,
            self.ops,
            self.took.as_secs(),
            self.took.subsec_millis(),
            tenths / 10,
            tenths % 10
        )
    }
}
