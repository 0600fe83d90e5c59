//! The two ways in which a query succeeds.
ghost use Rattle.prover.specs.Steps.{Decodes};

/// The first byte of a tree: a query succeeds by a rule, or by restart.
#[derive(Clone, Copy, PartialEq, Debug)]
pub enum Step {
    Rule = 1,
    Restart = 2,
}

/// A byte that stands for no step.
#[derive(Clone, Copy, PartialEq, Debug)]
pub struct NoStep;

impl TryFrom<u8> for Step {
    type Error = NoStep;

    ghost try_from_gives = { Decodes };

    fn try_from(byte: u8) -> Result<Self, NoStep> {
        match byte {
            1 => Ok(Step::Rule),
            2 => Ok(Step::Restart),
            _ => Err(NoStep),
        }
    }
}
