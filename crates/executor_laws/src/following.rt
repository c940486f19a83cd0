//! Laws of each call's steps: the machine's calls go as `call_steps` says.
ghost use Rattle.executor_laws.specs.CallsFit.{ActsFit, AnswersFit};
ghost use Rattle.executor_laws.specs.CallsFollow.{ActsFollow, AnswersFollow, CallsBegin};

/// Whatever the world is, what a party does next leads to the steps that `next` gives for it and for what it saw. Nothing is
/// left out: with user code that ends, these are all operations of the machine, of executors of both kinds.
pub fn calls_follow_their_steps()
    ensures acts { ActsFollow }
    ensures answers { AnswersFollow }
{}

/// Whatever the world is, a call begins with the steps that `begins` gives for what it is asked.
pub fn calls_begin_as_asked()
    ensures { CallsBegin }
{}

/// Whatever the world is, what a party does next sees what its step can see, or it changes nothing and leads to nothing; and user
/// code ends as its step can see. So what a running call is asked for when it says what it saw, the machine's calls meet.
pub fn calls_see_what_fits()
    ensures acts { ActsFit }
    ensures answers { AnswersFit }
{}
