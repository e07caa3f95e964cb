// The types that the calls of document 01 speak of, and the numbers that they share. What the calls do is defined in
// specs/.
#![tactic(auto)]

ghost use Rattle.std.specs.Prelude.{◌≡◌};
ghost use Rattle.manual.specs.Answers.{number_of};
ghost use Rattle.manual.specs.Lent.{as_found, as_lent};

// "An event number is never taken for a place in memory."
#[derive(Clone, Copy)]
pub struct EventNumber(pub usize);

#[derive(Clone, Copy)]
pub struct Place(pub usize);

// "Each accepted report gives a verdict: none, passed or failed."
#[derive(Clone, Copy)]
pub enum Verdict {
    None,
    Passed,
    Failed,
}

// "n events (1 to 512), M memory places (1 to 64), F frame bytes (0 to 32)"
pub const MOST_EVENTS: usize = 512;

pub const MOST_PLACES: usize = 64;

pub const MOST_FRAME: usize = 32;

// "Then 13 per event"; document 02, W5: "one more configuration number per event, 14th".
pub const ROW_WIDTH: usize = 14;

// "the length is exactly 3 + 13n", with W5 3 + 14n: of the longest configuration.
pub const MOST_NUMBERS: usize = 3 + ROW_WIDTH * MOST_EVENTS;

// Document 02, W5: all of the "31 enable conditions".
pub const ALL_PRESENT: u32 = 2_147_483_647;

// "Records: 4n lent bytes; per event status, K (failed cycles), h (healing count), g (ageing count)."
pub const RECORD_WIDTH: usize = 4;

// The longest block of records.
pub const MOST_RECORDS: usize = RECORD_WIDTH * MOST_EVENTS;

// Document 02, W6: "Memory is 1 + M(3 + 2F) bytes.": the longest payload of an entry, and the longest block.
pub const MOST_PAYLOAD: usize = 2 * MOST_FRAME;

pub const MOST_MEMORY: usize = 1 + MOST_PLACES * (3 + MOST_PAYLOAD);

// "which of the four cycles run"
pub const CYCLES: usize = 4;

// "The eight bits have the names and weights of ISO 14229-1."
pub const BITS: usize = 8;

// "Board: which of the four cycles run, and an overflow flag."
#[derive(Clone, Copy)]
pub struct Board {
    pub running: [bool; CYCLES],
    pub overflow: bool,
}

// What memory did at an event's part of a call: it was not told, since there was no fresh failure; or, by rules 1 to 4
// of a fresh failure, the event's entry was renewed, one was added, one was displaced (the event is that of the entry
// that rule 3 takes out), or the failure was not stored.
#[derive(Clone, Copy)]
pub enum StoreAnswer {
    Untold,
    Renewed,
    Added,
    Displaced(EventNumber),
    NotStored,
}

// Document 02, W7: "Keep five counts, each 32 bits and lent as a slice of five".
pub const COUNTS: usize = 5;

// "entries admitted, pushed out, aged, cleared, and failures not stored": five numbers in their order, as what a call
// adds to the counts.
#[derive(Clone, Copy)]
pub struct Rise {
    pub admitted: u32,
    pub pushed_out: u32,
    pub aged: u32,
    pub cleared: u32,
    pub not_stored: u32,
}

// Why a call was refused: document 01's numbers 1 to 10 and document 02's 11 and 12, in their order.
#[derive(Clone, Copy)]
pub enum Refusal {
    BadArgument,
    BadConfiguration,
    BadState,
    NoSuch,
    WrongCycleState,
    NoPreResult,
    RoomTooSmall,
    BadImage,
    WrongFrame,
    NoEntry,
    MissingCondition,
    CountsFull,
}

// "Numbers a call answers with": its number.
impl From<Refusal> for u8 {
    ghost from_gives = { λ refusal number. number ≡ number_of refusal };

    fn from(refusal: Refusal) -> u8 {
        match refusal {
            Refusal::BadArgument => 1,
            Refusal::BadConfiguration => 2,
            Refusal::BadState => 3,
            Refusal::NoSuch => 4,
            Refusal::WrongCycleState => 5,
            Refusal::NoPreResult => 6,
            Refusal::RoomTooSmall => 7,
            Refusal::BadImage => 8,
            Refusal::WrongFrame => 9,
            Refusal::NoEntry => 10,
            Refusal::MissingCondition => 11,
            Refusal::CountsFull => 12,
        }
    }
}

// Document 02, W5: "how many of the conditions it needs are still missing, and the lowest missing number, or 32 when
// none is".
#[derive(Clone, Copy)]
pub struct StillMissing {
    pub count: u32,
    pub lowest: u32,
}

// Document 02, W10: "each event gets a paint".
#[derive(Clone, Copy)]
pub enum Paint {
    Grey,
    Red,
    Live,
}

// Document 02, W6: "Reading a frame takes a choice of which": the frame of the first failure, or of the latest.
#[derive(Clone, Copy)]
pub enum Which {
    First,
    Latest,
}

// A stored frame, as a part of the caller's own memory block: where it starts, and its length.
#[derive(Clone, Copy)]
pub struct FramePart {
    pub start: usize,
    pub length: usize,
}

// "the lent blocks": the records, the debounce numbers and memory as a call finds them, and the board that it is given.
#[derive(Clone, Copy)]
pub struct Lent<'a> {
    pub records: &'a [u8],
    pub debounce: &'a [i32],
    pub memory: &'a [u8],
    pub board: Board,
}

// The same, lent to a call that can change them. What it leaves of the board stands here too.
#[derive(Drop)]
pub struct LentMut<'a> {
    pub records: &'a mut [u8],
    pub debounce: &'a mut [i32],
    pub memory: &'a mut [u8],
    pub board: Board,
}

impl<'a> LentMut<'a> {
    // The state as it stands, to be read.
    pub fn as_found<'b>(&'b self) -> Lent<'b>
        ensures { as_found result ≡ as_lent self.now }
    {
        Lent {
            records: &*self.records,
            debounce: &*self.debounce,
            memory: &*self.memory,
            board: self.board,
        }
    }
}
