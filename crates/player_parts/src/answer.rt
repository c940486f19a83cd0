//! How commands are answered, and the text of that.
use crate::outside::Gift;
use crate::stage::Stage;
use async_task::{NoMemory, Poll, TaskError};
use script::{Ending, Word};

/// How a command ended.
#[derive(Clone, Copy)]
pub enum Answer {
    Made,
    Full,
    NoMemory,
    Yes,
    No,
    Done,
    Pending,
    /// A tick polled a future.
    Ready,
    /// A handle or run gave this output.
    Output(u64),
    Cancelled,
    Finished,
    /// It isn't possible, and changed nothing.
    NotPossible,
}

impl Answer {
    /// Of a command that asks a question.
    pub fn of(yes: bool) -> Answer {
        if yes { Answer::Yes } else { Answer::No }
    }

    /// Of a command that is possible only where there is something to do it with.
    pub fn done_if(is_done: bool) -> Answer {
        if is_done {
            Answer::Done
        } else {
            Answer::NotPossible
        }
    }
}

/// Shows how a command of this word ended.
pub fn show_end(stage: &Stage, word: Word, answer: Answer) {
    match answer {
        Answer::Output(number) => stage.show_output(word.text(), number),
        answer => stage.show_end(word.text(), ending_of(answer).text()),
    }
}

fn ending_of(answer: Answer) -> Ending {
    match answer {
        Answer::Made => Ending::Made,
        Answer::Full => Ending::Full,
        Answer::NoMemory => Ending::NoMemory,
        Answer::Yes => Ending::Yes,
        Answer::No => Ending::No,
        Answer::Done => Ending::Done,
        Answer::Pending => Ending::Pending,
        Answer::Ready | Answer::Output(_) => Ending::Ready,
        Answer::Cancelled => Ending::Cancelled,
        Answer::Finished => Ending::Finished,
        Answer::NotPossible => Ending::NotPossible,
    }
}

/// What the poll of a handle answers.
pub fn answer_of_task(polled: Poll<Result<Gift, TaskError>>) -> Answer {
    match polled {
        Poll::Pending => Answer::Pending,
        Poll::Ready(Ok(gift)) => Answer::Output(gift.into_number()),
        Poll::Ready(Err(TaskError::TaskClosed)) => Answer::Cancelled,
        Poll::Ready(Err(TaskError::NoMemory)) => Answer::NoMemory,
    }
}

/// What the poll of a handle answers that has cancelled its future.
pub fn answer_of_cancel(polled: Poll<Result<Option<Gift>, NoMemory>>) -> Answer {
    match polled {
        Poll::Pending => Answer::Pending,
        Poll::Ready(Ok(Some(gift))) => Answer::Output(gift.into_number()),
        Poll::Ready(Ok(None)) => Answer::Cancelled,
        Poll::Ready(Err(NoMemory)) => Answer::NoMemory,
    }
}

/// What the poll of a tick answers.
pub fn answer_of_tick(polled: Poll<Result<(), NoMemory>>) -> Answer {
    match polled {
        Poll::Pending => Answer::Pending,
        Poll::Ready(Ok(())) => Answer::Ready,
        Poll::Ready(Err(NoMemory)) => Answer::NoMemory,
    }
}
