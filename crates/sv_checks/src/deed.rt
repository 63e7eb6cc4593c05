// Steps whose selectors are read.
ghost use Rattle.std.specs.Prelude.{◌≡◌};
ghost use Rattle.sv_checks.specs.Deeds as spec;
ghost use Rattle.sv_checks.specs.Tells.{Tells, TellsOne};
ghost use Rattle.sv_checks.specs.declared.deed.DeedError.TheVariants.{NoMemory as OutOfMemory};

use std::alloc::{AllocFailed, Global};
use sv_base::NoMemory;
use sv_events::Event;
use sv_select::{SelectError, Selector, parse};
use sv_steps::{Expectation, Step, Want};
use thiserror::Error;

/// What is wanted of the elements that a selector asks for.
#[derive(Drop)]
pub struct Check<'a> {
    pub selector: Selector,
    pub want: &'a Want,
}

/// What a step does: an event comes to the page, or the page is checked.
#[derive(Drop)]
pub enum Deed<'a> {
    Event(&'a Event),
    Check(Check<'a>),
}

/// What is answered in place of the deeds of steps.
#[derive(Clone, Copy, Debug, PartialEq, Eq, Error)]
pub enum DeedError {
    /// The step with this number, from 0, is the first whose selector is none.
    #[error("BadSelector {0}")]
    BadSelector(usize),
    #[error("out of memory")]
    NoMemory,
}

impl From<NoMemory> for DeedError {
    ghost from_gives = { λ _ error. error ≡ OutOfMemory };

    fn from(_: NoMemory) -> DeedError {
        DeedError::NoMemory
    }
}

impl<T: Drop> From<AllocFailed<T>> for DeedError {
    ghost from_gives = { λ _ error. error ≡ OutOfMemory };

    fn from(_: AllocFailed<T>) -> DeedError {
        DeedError::NoMemory
    }
}

// The check of an expectation with a number.
fn check_of<'a>(
    alloc: Global,
    at: usize,
    expectation: &'a Expectation,
) -> Result<Deed<'a>, DeedError>
    ensures { TellsOne result (spec.check_of at expectation.now) }
{
    match parse(alloc, expectation.selector.as_str()) {
        Ok(selector) => Ok(Deed::Check(Check {
            selector,
            want: &expectation.want,
        })),
        Err(SelectError::BadSelector) => Err(DeedError::BadSelector(at)),
        Err(SelectError::NoMemory) => Err(DeedError::NoMemory),
    }
}

// The deed of a step with a number.
fn deed_of<'a>(alloc: Global, at: usize, step: &'a Step) -> Result<Deed<'a>, DeedError>
    ensures { TellsOne result (spec.deed_of at step.now) }
{
    match step {
        Step::Event(event) => Ok(Deed::Event(event)),
        Step::Expect(expectation) => check_of(alloc, at, expectation),
    }
}

/// The deeds of steps, in order, or the first step whose selector is none.
pub fn deeds_of<'a>(alloc: Global, steps: &'a [Step]) -> Result<Vec<Deed<'a>>, DeedError>
    ensures { Tells result (spec.deeds_from 0 steps.now) }
{
    let mut deeds = Vec::new(alloc);
    for (at, step) in steps.iter().enumerate() {
        deeds.push(deed_of(alloc, at, step)?)?;
    }
    Ok(deeds)
}
