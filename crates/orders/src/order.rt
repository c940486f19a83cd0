//! An order: the calls that were made, and the outputs.

ghost use Rattle.std.specs.Prelude.{◌≡◌, IfOk, length};

use crate::calls::{Call, Came, Made};
use std::alloc::{AllocError, Global};
use std::collections::VecDeque;

/// The output of a future, as its `Debug` writes it.
#[derive(Drop)]
pub struct Output {
    /// The future's number.
    pub number: u64,
    /// Its output.
    pub text: String,
}

/// The calls of one play from its begin to its end, and the outputs.
#[derive(Drop)]
pub struct Order {
    /// The calls.
    pub made: Vec<Made>,
    /// The outputs, as they came.
    pub outputs: Vec<Output>,
}

impl Order {
    /// No call was made yet.
    pub(crate) fn new(alloc: Global) -> Self {
        Order {
            made: Vec::new(alloc),
            outputs: Vec::new(alloc),
        }
    }

    /// One more call was made.
    pub(crate) fn note(&mut self, call: Call, came: Option<Came>) -> Result<(), AllocError> {
        self.made.push(Made { call, came })?;
        Ok(())
    }

    /// A future gave this output.
    pub(crate) fn note_output(&mut self, number: u64, text: String) -> Result<(), AllocError> {
        self.outputs.push(Output { number, text })?;
        Ok(())
    }

    /// The same order once more.
    pub(crate) fn copy(&self, alloc: Global) -> Result<Order, AllocError>
        ensures { IfOk result (λ copy. length copy.made.items ≡ length self.now.made.items) }
    {
        let mut outputs = Vec::new(alloc);
        for output in &self.outputs {
            outputs.push(Output {
                number: output.number,
                text: output.text.clone()?,
            })?;
        }
        Ok(Order {
            made: self.made.clone()?,
            outputs,
        })
    }

    /// The calls alone.
    pub(crate) fn calls(&self, alloc: Global) -> Result<VecDeque<Call>, AllocError> {
        let mut calls = VecDeque::new(alloc);
        for made in &self.made {
            calls.push_back(made.call)?;
        }
        Ok(calls)
    }
}
