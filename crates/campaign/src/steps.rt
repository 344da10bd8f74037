ghost use Rattle.std.specs.Prelude.{◌≡◌, pos};
ghost use Rattle.campaign.specs.Relations.{step_of};

use std::marker::PhantomData;

/// What a step is known by: the inverter that it sets off its schedule, and its size with sign, in thousandths of per unit.
#[derive(Clone, Copy, PartialEq, Eq, Debug)]
pub struct Command {
    pub(crate) inverter: usize,
    pub(crate) size: i32,
}

/// A step that was handed out, in one of two phases. It is withdrawn in the end: it cannot be copied, and may be dropped only
/// after its withdrawal, so a program that lets one go or forgets one is not proved. What gets past that: `unsafe`; a value with a
/// `drop` of its own that withdraws the step, if it is forgotten; another source with the same buses and inverters, on which the step
/// is withdrawn; and the end of the process, as by an `Abort`, while the step is out.
pub struct Step<P> {
    command: Command,
    phase: PhantomData<P>,
}

/// The phase of a step that was commanded and not collected yet.
pub enum Fresh {}

/// The phase of a step that was collected.
pub enum Collected {}

/// A step that is collected or withdrawn.
pub type FreshStep = Step<Fresh>;

/// A step that can only be withdrawn.
pub type CollectedStep = Step<Collected>;

// A step is handed out with a size that is not 0. Its withdrawal sets the size to 0, and then it may be dropped.
impl<P> Drop for Step<P> {
    fn drop(self)
        requires { self.command.size ≡ pos 0 }
    {
        let Step {
            command: _,
            phase: _,
        } = self;
    }
}

impl<P> Step<P> {
    // What the step is known by.
    pub(crate) fn command(&self) -> Command
        ensures { result ≡ self.now.command }
    {
        self.command
    }

    // Ends a step that was withdrawn.
    pub(crate) fn finish(mut self) {
        self.command.size = 0;
    }
}

impl FreshStep {
    // Hands out a step that was commanded.
    pub(crate) fn new(command: Command) -> FreshStep
        ensures { result ≡ step_of command }
    {
        Step {
            command,
            phase: PhantomData,
        }
    }

    // The step, as one that was collected.
    pub(crate) fn collected(self) -> CollectedStep
        ensures { result ≡ step_of self.command }
    {
        let Step { command, phase: _ } = self;
        Step {
            command,
            phase: PhantomData,
        }
    }
}
