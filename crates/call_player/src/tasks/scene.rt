//! What the tasks of a script share: the lines shown so far, the list of Runnables, and what is known of each name.
use crate::tasks::answer::Answer;
use crate::tasks::command::Name;
use crate::tasks::counts::{Counts, Happening};
use async_task::{Returning, StoredRunnable, StoredWaker};
use std::alloc::{AllocError, Global};
use std::collections::VecDeque;
use std::mem;
use std::sync::{Arc, Mutex, Wait};

/// What is known of a name.
#[derive(Drop)]
pub struct Record {
    pub name: String,
    pub spawned: bool,
    pub counts: Counts,
    /// The kept wakers, the newest last.
    pub kept: Vec<Returning<StoredWaker>>,
}

/// A Runnable in the list.
#[derive(Drop)]
pub struct Entry {
    pub task: Name,
    pub runnable: Returning<StoredRunnable<u64>>,
}

/// What is behind the lock.
#[derive(Drop)]
pub struct Board {
    pub text: String,
    pub list: VecDeque<Entry>,
    pub records: Vec<Record>,
    /// Whether memory was refused where no caller could get the error.
    pub is_short: bool,
}

/// What the tasks of a script share. Who looks at it waits by the runtime value that is handed in.
#[derive(Drop)]
pub struct Scene {
    board: Mutex<Board>,
}

/// A scene as each that tells it something has it.
pub type SharedScene = Arc<Scene, Global>;

/// One more way to a scene. A copy is refused only where there are as many as a word can count.
pub fn copied<R: Wait>(rt: &R, scene: &SharedScene) -> SharedScene {
    for _ in rt.forever() {
        if let Ok(scene) = Arc::try_clone(scene) {
            return scene;
        }
    }
    unreachable!()
}

impl Board {
    pub fn new(alloc: Global, names: Vec<String>) -> Result<Board, AllocError> {
        let mut records = Vec::new(alloc);
        for name in names {
            records.push(Record {
                name,
                spawned: false,
                counts: Counts::new(),
                kept: Vec::new(alloc),
            })?;
        }
        Ok(Board {
            text: String::new(alloc),
            list: VecDeque::new(alloc),
            records,
            is_short: false,
        })
    }

    /// Adds a line of a word, a name and what follows it.
    fn add(&mut self, word: &str, name: Name, rest: &str) -> Result<(), AllocError> {
        self.text.push_str(word)?;
        if let Some(record) = self.records.get(name.0) {
            self.text.push_str(record.name.as_str())?;
        }
        self.text.push_str(rest)?;
        self.text.push_str("\n")
    }
}

impl Scene {
    /// A scene of these names.
    pub fn new(alloc: Global, names: Vec<String>) -> Result<SharedScene, AllocError> {
        let board = Mutex::new(Board::new(alloc, names)?);
        Ok(Arc::new(alloc, Scene { board })?)
    }

    /// Shows a line of a word, a name and what follows it.
    pub fn show<R: Wait>(&self, rt: &R, word: &str, name: Name, rest: &str) {
        let mut board = self.board.lock(rt);
        if board.add(word, name, rest).is_err() {
            board.is_short = true;
        }
    }

    /// Shows a line of a word and an answer.
    pub fn answer<R: Wait>(&self, rt: &R, word: &str, answer: &str) -> Result<(), AllocError> {
        let mut board = self.board.lock(rt);
        board.text.push_str(word)?;
        board.text.push_str(": ")?;
        board.text.push_str(answer)?;
        board.text.push_str("\n")
    }

    /// Counts what happened to a task.
    pub fn count<R: Wait>(&self, rt: &R, name: Name, happening: Happening) {
        let mut board = self.board.lock(rt);
        if let Some(record) = board.records.get_mut(name.0) {
            record.counts.count(happening);
        }
    }

    /// Keeps a waker as the newest of this task.
    pub fn keep<R: Wait>(&self, rt: &R, name: Name, waker: Returning<StoredWaker>) {
        let mut board = self.board.lock(rt);
        let is_kept = match board.records.get_mut(name.0) {
            Some(record) => record.kept.push(waker).is_ok(),
            None => true,
        };
        if !is_kept {
            board.is_short = true;
        }
    }

    /// Takes the newest kept waker of this task out.
    pub fn newest<R: Wait>(&self, rt: &R, name: Name) -> Option<Returning<StoredWaker>> {
        match self.board.lock(rt).records.get_mut(name.0) {
            Some(record) => record.kept.pop(),
            None => None,
        }
    }

    /// Puts a Runnable at the end of the list.
    pub fn push<R: Wait>(&self, rt: &R, task: Name, runnable: Returning<StoredRunnable<u64>>) {
        let mut board = self.board.lock(rt);
        if board.list.push_back(Entry { task, runnable }).is_err() {
            board.is_short = true;
        }
    }

    /// Takes the first Runnable of the list.
    pub fn first<R: Wait>(&self, rt: &R) -> Option<Entry> {
        self.board.lock(rt).list.pop_front()
    }

    /// Puts a Runnable to the front of the list.
    pub fn push_front<R: Wait>(
        &self,
        rt: &R,
        task: Name,
        runnable: Returning<StoredRunnable<u64>>,
    ) {
        let mut board = self.board.lock(rt);
        if board.list.push_front(Entry { task, runnable }).is_err() {
            board.is_short = true;
        }
    }

    /// How many Runnables are in the list.
    pub fn list_length<R: Wait>(&self, rt: &R) -> usize {
        self.board.lock(rt).list.len()
    }

    /// Whether a name has no task yet. From now on it has one.
    pub fn is_new<R: Wait>(&self, rt: &R, name: Name) -> bool {
        match self.board.lock(rt).records.get_mut(name.0) {
            Some(record) if !record.spawned => {
                record.spawned = true;
                true
            }
            _ => false,
        }
    }

    /// The text of a name.
    pub fn name<R: Wait>(&self, rt: &R, alloc: Global, name: Name) -> Result<String, AllocError> {
        let mut text = String::new(alloc);
        if let Some(record) = self.board.lock(rt).records.get(name.0) {
            text.push_str(record.name.as_str())?;
        }
        Ok(text)
    }

    /// How often things happened to a task.
    pub fn counts<R: Wait>(&self, rt: &R, alloc: Global, name: Name) -> Result<Answer, AllocError> {
        let counts = match self.board.lock(rt).records.get(name.0) {
            Some(record) if record.spawned => record.counts,
            _ => return Ok(Answer::NotPossible),
        };
        Ok(Answer::Text(counts.into_text(alloc)?))
    }

    /// What was shown so far, which is taken out. An error where memory was refused meanwhile.
    pub fn shown<R: Wait>(&self, rt: &R, alloc: Global) -> Result<Vec<u8>, AllocError> {
        let mut board = self.board.lock(rt);
        if board.is_short {
            return Err(AllocError);
        }
        Ok(mem::replace(&mut board.text, String::new(alloc)).into_bytes())
    }
}
