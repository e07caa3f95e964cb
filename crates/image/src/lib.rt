// Document 01, "Saved image", with document 02's edition 2: save and restore.
#![tactic(auto)]

ghost use Rattle.std.specs.Prelude.{◌≡◌, true, cond, [], ◌∷◌, ◌++◌, ◌+◌, ◌-◌, ◌*◌, ◌≤◌, ◌<◌, length, get_or, replicate, IfOk};
ghost use Rattle.manual.specs.Configuration.{most_payload, entry_frames, config_ok};
ghost use Rattle.manual.specs.Lent.{as_found, as_lent, keeps_loans};
ghost use Rattle.manual.specs.Memory.{entry_count, bytes_in_use};
ghost use Rattle.manual.specs.Answers.{lent_room, lent_counts, ◌if◌, first_that_applies, of_answer, of_length, leaves};
ghost use Rattle.manual.specs.Image.{header_length, header, image_from, edition, acceptable_in, image_of, state_of};
ghost use Rattle.manual.specs.Image.{any_runs, save_rules, save, restore_rules, restore};
ghost use Rattle.judgement.specs.Checks.{check_number};
ghost use Rattle.judgement.specs.Fits.{RecordsFor};
ghost use Rattle.writing.specs.Writing.{written, append, filled};
ghost use Rattle.image.specs.Editions.{edition_number, edition_of, edition_told, Judged, judged_number};
ghost use Rattle.image.specs.Layout.{memory_at, length_ok, bodies_ok};
ghost use Rattle.image.specs.Widened.{both_frames, widened_bytes, made_of};
ghost use Rattle.image.specs.Ready.{Counted, Savable, Widenable, Fillable, Restorable};

use manual::{Board, Lent, LentMut, Refusal};

// ---- the layout

// "Byte 0 = 3 bodies, byte 1 = edition 1, then three rows of 6"
const BODY_COUNT: u8 = 3;

const EDITION_AT: usize = 1;

const HEADER_LENGTH: usize = 20;

// "kind (1, 2, 3 in that order)": "1 the records; 2 the entry count and the entries in use; 3 the overflow flag"
const KIND_RECORDS: u8 = 1;

const KIND_MEMORY: u8 = 2;

const KIND_OVERFLOW: u8 = 3;

const OVERFLOW_LENGTH: usize = 1;

// Document 02, W6: "The image gets edition 2; an edition 1 image is accepted too".
#[derive(Clone, Copy)]
enum Edition {
    One,
    Two,
}

impl Edition {
    // The length of an entry's payload: of its frames it has one in edition 1, and two in edition 2.
    fn payload_bytes(self, cfg: &[i32]) -> usize
        requires { config_ok cfg.now ≡ true }
        ensures { edition (edition_number self) result ≡ edition_of cfg.now self }
    {
        match self {
            Edition::One => config::frame_bytes(cfg),
            Edition::Two => memory::entry_frames(cfg),
        }
    }
}

// The edition as its number.
impl From<Edition> for u8 {
    ghost from_gives = { λ e number. number ≡ edition_number e };

    fn from(edition: Edition) -> u8 {
        match edition {
            Edition::One => 1,
            Edition::Two => 2,
        }
    }
}

// The edition of this number, where there is one.
impl TryFrom<u8> for Edition {
    type Error = Refusal;

    ghost try_from_gives = { λ number r. r ≡ edition_told number };

    fn try_from(number: u8) -> Result<Edition, Refusal> {
        match number {
            1 => Ok(Edition::One),
            2 => Ok(Edition::Two),
            _ => Err(Refusal::BadImage),
        }
    }
}

// The header of this edition, of bodies of these lengths and the overflow flag: after the two bytes a row for each
// body, "kind …, 0, offset (2), length (2)". "Numbers are high byte first", "Bodies follow without gaps".
fn header(edition: Edition, records: usize, memory: usize) -> [u8; HEADER_LENGTH]
    requires { header_length + records + memory < 65536 }
    ensures { result ≡ header (edition_number edition) records memory 1 }
{
    let memory_at = HEADER_LENGTH + records;
    let overflow_at = memory_at + memory;
    [
        BODY_COUNT,
        u8::from(edition),
        KIND_RECORDS,
        0,
        (HEADER_LENGTH / 256) as u8,
        (HEADER_LENGTH % 256) as u8,
        (records / 256) as u8,
        (records % 256) as u8,
        KIND_MEMORY,
        0,
        (memory_at / 256) as u8,
        (memory_at % 256) as u8,
        (memory / 256) as u8,
        (memory % 256) as u8,
        KIND_OVERFLOW,
        0,
        (overflow_at / 256) as u8,
        (overflow_at % 256) as u8,
        (OVERFLOW_LENGTH / 256) as u8,
        (OVERFLOW_LENGTH % 256) as u8,
    ]
}

// Where body 2 begins.
fn memory_at(cfg: &[i32]) -> usize
    requires { config_ok cfg.now ≡ true }
    ensures { result ≡ memory_at cfg.now }
{
    HEADER_LENGTH + manual::RECORD_WIDTH * config::events(cfg)
}

// The length of body 2 of a state, which begins with the entry count: "the entry count and the entries in use".
fn used_length(cfg: &[i32], memory: &[u8]) -> usize
    requires { Counted cfg.now memory.now }
    ensures { result ≡ bytes_in_use (entry_frames cfg.now) (entry_count memory.now) }
{
    memory::bytes_in_use(memory, memory::entry_frames(cfg))
}

// ---- the judgement of an image of one edition

// Whether the image is as long as its entry count says, and that is at most M. Any bytes may be judged, however many.
fn length_ok(cfg: &[i32], image: &[u8], payload_bytes: usize) -> bool
    requires { (config_ok cfg.now ≡ true) × (payload_bytes ≤ most_payload) }
    ensures { result ≡ length_ok cfg.now payload_bytes image.now }
{
    let start = memory_at(cfg);
    if image.len() <= start {
        return false;
    }
    let rest = &image[start..];
    if config::places(cfg) < memory::entry_count(rest) {
        return false;
    }
    image.len() == start + memory::bytes_in_use(rest, payload_bytes) + OVERFLOW_LENGTH
}

// Bodies 1 and 2 are judged as the records and the entries of a lent state are.
fn bodies_ok(cfg: &[i32], records: &[u8], used: &[u8], payload_bytes: usize) -> bool
    requires { (RecordsFor cfg.now records.now) × (payload_bytes ≤ most_payload) }
    ensures { result ≡ bodies_ok cfg.now payload_bytes records.now used.now }
{
    let n = config::events(cfg);
    let m = config::places(cfg);
    judgement::records_ok(cfg, records) & memory::entries_ok(n, m, payload_bytes, used, records)
}

// "Restore accepts exactly the images of well-formed states with all cycles stopped". Any bytes may be judged, however
// many.
fn image_in(cfg: &[i32], image: &[u8], edition: Edition) -> bool
    requires { config_ok cfg.now ≡ true }
    ensures { result ≡ acceptable_in cfg.now (edition_of cfg.now edition) image.now }
{
    let payload_bytes = edition.payload_bytes(cfg);
    if !length_ok(cfg, image, payload_bytes) {
        return false;
    }
    let start = memory_at(cfg);
    let end = image.len() - OVERFLOW_LENGTH;
    let expected = header(edition, start - HEADER_LENGTH, end - start);
    (expected[..] == image[..HEADER_LENGTH])
        & bodies_ok(
            cfg,
            &image[HEADER_LENGTH..start],
            &image[start..end],
            payload_bytes,
        )
        & (image[end] <= 1)
}

// ---- the judgement of an image

// 8. "an edition 1 image is accepted too": byte 1 tells the edition, and only that one is judged.
fn judge_image(cfg: &[i32], image: &[u8]) -> Result<Edition, Refusal>
    requires { config_ok cfg.now ≡ true }
    ensures { Judged cfg.now image.now result }
{
    if image.len() <= EDITION_AT {
        return Err(Refusal::BadImage);
    }
    let edition = Edition::try_from(image[EDITION_AT])?;
    if image_in(cfg, image, edition) {
        return Ok(edition);
    }
    Err(Refusal::BadImage)
}

// ---- save

// "5 | … save, any cycle running"
fn any_runs(board: Board) -> bool
    ensures { result ≡ any_runs board }
{
    board.running.contains(&true)
}

// The length of the image of this state.
fn image_length(cfg: &[i32], state: &Lent) -> usize
    requires { Savable cfg.now state.now.records.now state.now.memory.now }
    ensures { result ≡ length (image_of cfg.now (as_found state.now)) }
{
    HEADER_LENGTH + state.records.len() + used_length(cfg, state.memory) + OVERFLOW_LENGTH
}

// 5, then 7: "The first that applies, in the call's order, is given."
fn first_of(running: bool, too_small: bool) -> Result<(), Refusal>
    ensures { check_number result ≡ first_that_applies ((5 if running) ∷ (7 if too_small) ∷ []) }
{
    if running {
        return Err(Refusal::WrongCycleState);
    }
    if too_small {
        return Err(Refusal::RoomTooSmall);
    }
    Ok(())
}

// "save 5, 7"
fn judge_save(cfg: &[i32], state: &Lent, room: &[u8]) -> Result<(), Refusal>
    ensures { check_number result
        ≡ first_that_applies (save_rules cfg.now (lent_room room.now) (as_found state.now)) }
{
    judgement::begin(cfg, state, true)?;
    let too_small = room.len() < image_length(cfg, state);
    first_of(any_runs(state.board), too_small)
}

// Writes the header and the three bodies one after the other, and answers the length of the whole. "Saving always
// writes edition 2".
fn write_image(records: &[u8], used: &[u8], overflow: bool, room: &mut [u8]) -> usize
    requires { (header_length + length records.now + length used.now < 65536)
        × (header_length + length records.now + length used.now + 1 ≤ length room.old) }
    ensures { written result room.new
        ≡ filled (image_from 2 records.now used.now (cond overflow 1 0 ∷ []))
        room.old }
{
    let head = header(Edition::Two, records.len(), used.len());
    let records_at = writing::write(room, 0, &head);
    let memory_at = writing::write(room, records_at, records);
    let overflow_at = writing::write(room, memory_at, used);
    // "the overflow flag (0 or 1)"
    writing::write(room, overflow_at, &[u8::from(overflow)])
}

// Writes the image of the state, and answers its length.
fn accept_save(cfg: &[i32], state: &Lent, room: &mut [u8]) -> usize
    requires { (Savable cfg.now state.now.records.now state.now.memory.now)
        × (length (image_of cfg.now (as_found state.now)) ≤ length room.old) }
    ensures { written result room.new ≡ filled (image_of cfg.now (as_found state.now)) room.old }
{
    let used = used_length(cfg, state.memory);
    write_image(
        state.records,
        &state.memory[..used],
        state.board.overflow,
        room,
    )
}

// Save: 2, 3, 5 (any cycle running), 7 (the room is smaller than the image). "Save writes the image, no more, and
// answers its length.", "Saving always writes edition 2". A refusal leaves the room as it was, and its length is 0.
pub fn save(cfg: &[i32], state: &Lent, room: &mut [u8]) -> Result<usize, Refusal>
    ensures { leaves (of_length result) [] (lent_room room.new) (as_found state.now)
        ≡ save cfg.now (lent_room room.old) (as_found state.now) }
{
    judge_save(cfg, state, room)?;
    Ok(accept_save(cfg, state, room))
}

// ---- restore

// "restore 8". The image of an accepted call is of the edition that it answers.
fn judge_restore(
    cfg: &[i32],
    state: &Lent,
    image: &[u8],
    counts: &[u32],
) -> Result<Edition, Refusal>
    ensures number { judged_number result
        ≡ first_that_applies
        (restore_rules cfg.now image.now (lent_counts counts.now) (as_found state.now)) }
    ensures edition { IfOk result (λ e. get_or image.now 1 0 ≡ edition_number e) }
{
    let fits = counts::fit(counts);
    judgement::begin_with_lengths(cfg, state, fits)?;
    judge_image(cfg, image)
}

// Writes an entry of one frame, "its one frame becoming both", and answers the place behind it.
fn write_both(memory: &mut [u8], at: usize, bytes: &[u8]) -> usize
    requires { (3 ≤ length bytes.now) × (at + 2 * length bytes.now ≤ length memory.old + 3) }
    ensures { written result memory.new
        ≡ append (both_frames bytes.now) (written at memory.old) }
{
    let end = bytes.len();
    let first_at = writing::write(memory, at, &bytes[..memory::BEFORE_PAYLOAD]);
    let latest_at = writing::write(memory, first_at, &bytes[memory::BEFORE_PAYLOAD..end]);
    writing::write(memory, latest_at, &bytes[memory::BEFORE_PAYLOAD..end])
}

// Writes the entry count and the entries of an image of edition 1, each with both frames, and answers the place behind
// them.
fn widen(memory: &mut [u8], used: &[u8], frame_bytes: usize) -> usize
    requires { Widenable frame_bytes used.now memory.old }
    ensures { written result memory.new
        ≡ append (widened_bytes frame_bytes used.now) (written 0 memory.old) }
{
    let width = memory::BEFORE_PAYLOAD + frame_bytes;
    let mut at = writing::write(memory, 0, &used[..1]);
    for entry in used[1..].chunks_exact(width) {
        at = write_both(memory, at, entry);
    }
    at
}

// Writes what body 2 of an image of this edition makes of memory, and answers the place behind it.
fn write_entries(memory: &mut [u8], used: &[u8], edition: Edition, frame_bytes: usize) -> usize
    requires { Fillable (edition_number edition) frame_bytes used.now memory.old }
    ensures { written result memory.new
        ≡ append (made_of (edition_number edition) frame_bytes used.now) (written 0 memory.old) }
{
    match edition {
        Edition::One => widen(memory, used, frame_bytes),
        Edition::Two => writing::write(memory, 0, used),
    }
}

// Memory as body 2 of an image of this edition makes it: "the bytes after the last entry are 0".
fn fill_memory(memory: &mut [u8], used: &[u8], edition: Edition, frame_bytes: usize)
    requires { Fillable (edition_number edition) frame_bytes used.now memory.old }
    ensures { memory.new
        ≡ made_of (edition_number edition) frame_bytes used.now
        ++ replicate
        (length memory.old - length (made_of (edition_number edition) frame_bytes used.now)) 0 }
{
    let end = write_entries(memory, used, edition, frame_bytes);
    writing::zero_from(memory, end);
}

// Makes the state that the image tells: its records, every D 0, its entries, all cycles stopped, its overflow flag.
fn accept_restore(cfg: &[i32], state: &mut LentMut, image: &[u8], edition: Edition)
    requires { (Restorable cfg.now state.old.records.now state.old.debounce.now state.old.memory.now image.now)
        × (get_or image.now 1 0 ≡ edition_number edition) }
    ensures loans { keeps_loans state.old state.new }
    ensures promise { as_lent state.new ≡ state_of cfg.now image.now }
{
    let start = memory_at(cfg);
    let end = image.len() - OVERFLOW_LENGTH;
    writing::write(state.records, 0, &image[HEADER_LENGTH..start]);
    fresh_state::reset_numbers(state.debounce);
    let one = config::frame_bytes(cfg);
    fill_memory(state.memory, &image[start..end], edition, one);
    state.board = fresh_state::stopped_board(image[end] == 1);
}

// Restore: 2, 3 (lengths only), 8. "Restore accepts exactly the images of well-formed states with all cycles stopped,
// and makes that state."; "an edition 1 image is accepted too, its one frame becoming both". Document 02, W7: "A slice
// of another length is 3.", "A restore sets admitted to the entries present and the rest to 0". The image is judged
// whole before anything is written; a refusal changes nothing, the board neither.
pub fn restore(
    cfg: &[i32],
    state: &mut LentMut,
    image: &[u8],
    counts: &mut [u32],
) -> Result<(), Refusal>
    ensures loans { keeps_loans state.old state.new }
    ensures leaves { leaves (of_answer result) [] (lent_counts counts.new) (as_lent state.new)
        ≡ restore cfg.now image.now (lent_counts counts.old) (as_lent state.old) }
{
    let edition = judge_restore(cfg, &state.as_found(), image, counts)?;
    accept_restore(cfg, state, image, edition);
    let present = memory::entry_count(state.as_found().memory) as u32;
    counts::set_present(counts, present);
    Ok(())
}
