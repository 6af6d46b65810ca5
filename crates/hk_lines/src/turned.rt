//! What a line did.

use crate::{Rule, Status};

/// What a line did. Where what it printed goes to, its call says.
#[derive(Clone, Copy, Debug, PartialEq, Eq)]
pub enum Turned {
    /// The line is right, and the lines go on.
    Goes,
    /// The lines end.
    Ends(Status),
    /// The line breaks a rule.
    Wrong(Rule),
}
