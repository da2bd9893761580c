// Invocations under way.

use crate::told::Told;
use group_items::Event;

/// What is known of an invocation under way: what it was told, the events that it has told, those that it has made and not told
/// yet, the one whose words are asked for, with room for them, and how many steps it has made.
#[derive(Drop)]
pub struct Row {
    pub inv: Told,
    pub told: Vec<Event>,
    pub untold: Vec<Event>,
    pub asked: Option<Event>,
    pub used: usize,
}

/// An invocation under way, with the state in which its program stands. It has none where it has no meaning from the start.
#[derive(Drop)]
pub struct Thread<S: Drop> {
    pub row: Row,
    pub state: Option<S>,
}
