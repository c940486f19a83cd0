ghost use Rattle.std.specs.Prelude.{◌≡◌};
ghost use Rattle.script.specs.WordText.{word_of_spawn, word_text};

use executor_parts::Mark;

/// The first word of a command, under which its answer is printed.
#[derive(Clone, Copy)]
pub enum Word {
    Spawn,
    Urgent,
    Try,
    Empty,
    Wake,
    Unkeep,
    Poll,
    Cancel,
    Detach,
    Drop,
    Tick,
    PollTick,
    DropTick,
    Run,
    PollRun,
    DropRun,
    Leak,
    End,
    Begin,
    Go,
    Finish,
}

impl Word {
    /// That of a spawn with this mark.
    pub fn of_spawn(mark: Mark) -> Word
        ensures { result ≡ word_of_spawn mark }
    {
        match mark {
            Mark::Plain => Word::Spawn,
            Mark::Urgent => Word::Urgent,
        }
    }

    /// Its text.
    pub fn text(self) -> &'static [u8]
        ensures { result.now ≡ word_text self }
    {
        match self {
            Word::Spawn => b"spawn",
            Word::Urgent => b"urgent",
            Word::Try => b"try",
            Word::Empty => b"empty",
            Word::Wake => b"wake",
            Word::Unkeep => b"unkeep",
            Word::Poll => b"poll",
            Word::Cancel => b"cancel",
            Word::Detach => b"detach",
            Word::Drop => b"drop",
            Word::Tick => b"tick",
            Word::PollTick => b"polltick",
            Word::DropTick => b"droptick",
            Word::Run => b"run",
            Word::PollRun => b"pollrun",
            Word::DropRun => b"droprun",
            Word::Leak => b"leak",
            Word::End => b"end",
            Word::Begin => b"begin",
            Word::Go => b"go",
            Word::Finish => b"finish",
        }
    }
}
