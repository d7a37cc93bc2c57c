// Steps.
use crate::{Answer, Event};
use sp_list::{Duplicate, Sequence};
use std::alloc::{AllocError, Global};

/// An event with its answer.
#[derive(Drop)]
pub struct Step {
    pub event: Event,
    pub answer: Answer,
}

impl Duplicate for Step {
    fn copy(&self, alloc: Global) -> Result<Step, AllocError> {
        let event = self.event.copy(alloc)?;
        let answer = self.answer.copy(alloc)?;
        Ok(Step { event, answer })
    }
}

/// Steps, in order.
pub type Steps = Sequence<Step>;
