//! A value with the last step to it.

use crate::Step;
use es_value::Id;

/// A value that is reached, with the last step to it. The steps before it are those of the values
/// that the step comes from.
#[derive(Clone, Copy, Debug, PartialEq, Eq)]
pub struct Way {
    /// The identity of the value.
    pub value: Id,
    /// The step that leads to it.
    pub step: Step,
}
