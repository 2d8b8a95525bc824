// What each call does to a holder in four arrays: definitions (contract 7.3 to 7.11, 10.4).
#![tactic(auto)]

use chart::Point;

// What a party drafts.
#[derive(Clone, Copy)]
pub struct Draft {
    pub start: Point,
    pub count: u16,
}
