//! What can be copied, compared and written of jobs, answers and errors.
use jobs::{Answer, Job, JobsError};
use std::fmt::Debug;

/// Copies, compares, and is written for a reader of the code.
fn is_plain<T: Clone + Copy + PartialEq + Eq + Debug + Send + Sync + Drop>(value: T) -> bool {
    let copy = value;
    copy == value
}

#[test]
fn jobs_answers_and_errors_are_plain_values(rt: HostRuntime) {
    assert!(rt; is_plain(Job::Sum(1)) & is_plain(Job::Mul(1, 2)));
    assert!(rt; is_plain(Answer::Value(1)) & is_plain(Answer::TooLarge));
    assert!(rt; is_plain(JobsError::NoThread) & is_plain(JobsError::NoMemory));
    assert!(rt; is_plain(JobsError::Missing(3)));
    assert!(rt; (Job::Sum(1) != Job::Mul(1, 1)) & (JobsError::Missing(1) != JobsError::Missing(2)));
}
