ghost use Rattle.std.specs.Prelude.{◌≤◌, ◌≡◌, ◌+◌, ◌/◌, ◌%◌, ◌<◌, nat_lt, if◌then◌else◌};

/// How many of so many operations one of `parties` does: as many as the others, or one more.
pub fn share(ops: u64, parties: u64, party: u64) -> u64
    requires { 0 < parties }
    ensures { result ≡ ops / parties + (if nat_lt party (ops % parties) then 1 else 0) }
{
    if party < ops % parties {
        ops / parties + 1
    } else {
        ops / parties
    }
}

/// How many of so many operations the round of this number does: each does `size`, and the last one what is left. There are
/// `ops.div_ceil(size)` rounds.
pub fn round(ops: u64, size: u64, number: u64) -> u64
    ensures { result ≤ size }
{
    ops.saturating_sub(number.saturating_mul(size)).min(size)
}
