//! The ticks and runs of a script.
use async_executor::{Run, RunError, Tick};
use async_task::Poll;
use player_parts::{Answer, Bell, Gift, Own};

/// A tick of a script.
pub type ScriptTick<'a, F, R> = Tick<'a, F, Gift, Bell, R>;

/// A run of a script.
pub type ScriptRun<'a, F, H, R> = Run<'a, F, Gift, Bell, R, Own<H>>;

/// What the poll of a run answers.
pub fn answer_of_run(polled: Poll<Result<u64, RunError>>) -> Answer {
    match polled {
        Poll::Pending => Answer::Pending,
        Poll::Ready(Ok(number)) => Answer::Output(number),
        Poll::Ready(Err(RunError::NoMemory)) => Answer::NoMemory,
        Poll::Ready(Err(RunError::Finished)) => Answer::Finished,
    }
}
