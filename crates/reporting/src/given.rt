// What the two calls are given beside the state and the counts.
use manual::EventNumber;

// A result of an event's test: code "0 passed, 1 failed, 2 pre-passed, 3 pre-failed", with the lent frame, made while
// these conditions are present.
#[derive(Clone, Copy)]
pub struct Report<'a> {
    pub event: EventNumber,
    pub code: u32,
    pub frame: &'a [u8],
    pub present: u32,
}

// "Tick of d ms (0 to 60,000)", with the lent frame, while these conditions are present.
#[derive(Clone, Copy)]
pub struct Tick<'a> {
    pub ms: u32,
    pub frame: &'a [u8],
    pub present: u32,
}
