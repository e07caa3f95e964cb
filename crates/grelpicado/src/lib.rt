// The sixteen calls for a caller in C, as grelpicado.h declares them. Each reads the board's bytes, makes the call, and
// hands back its numbers and the board. Those of replies over CAN stand in can.rt.
#![tactic(auto)]

ghost use Rattle.std.specs.Prelude.{◌≡◌, cond, List, [], ℕ, eqb, ℤ};
ghost use Rattle.manual.specs.State.{State, lent};
ghost use Rattle.manual.specs.Answers.{Beside, lent_counts, lent_both, alone, lent_room};
ghost use Rattle.manual.specs.Answers.{of_answer, of_report, of_status, of_length, leaves};
ghost use Rattle.manual.specs.Calls.{fresh, report, tick, start_cycle, stop_cycle, clear_code, read_status};
ghost use Rattle.manual.specs.Counter.{counter_read};
ghost use Rattle.manual.specs.Missing.{missing_read};
ghost use Rattle.manual.specs.Untested.{table_read, paint_read, list_grey};
ghost use Rattle.manual.specs.Image.{save, restore};
ghost use Rattle.manual.specs.Diagnostics.{request_reply};
ghost use Rattle.queries.specs.Reading.{tells, tells_missing, says, frame_read};
ghost use Rattle.untested.specs.Page.{table_told, paint_told};
ghost use Rattle.grelpicado.specs.declared.PanelBoard.{PanelBoard};
ghost use Rattle.grelpicado.specs.Panel.{yes, flag_byte, which_of, board_of, bytes_of, verdict_number, crosses};
ghost use Rattle.grelpicado.specs.Panel.{crosses_without_board, crosses_with_counter, crosses_with_frame, with_answer};
ghost use Rattle.grelpicado.specs.Panel.{crosses_with_missing, with_missing};
ghost use Rattle.grelpicado.specs.Panel.{paint_number, crosses_with_table, crosses_with_paint, with_table, with_paint};
ghost use Rattle.grelpicado.specs.Panel.{with_report, with_status, with_counter, with_frame, with_length, with_request};

use manual::{
    Board, EventNumber, FramePart, Lent, LentMut, Paint, Refusal, StillMissing, Verdict, Which,
};
use reporting::{Report, Tick};

mod can;

// ---- what crosses by value

// "Board: which of the four cycles run, and an overflow flag.": each byte a flag, 0 no, anything else yes.
#[repr(C)]
#[derive(Clone, Copy)]
pub struct PanelBoard {
    pub running: [u8; manual::CYCLES],
    pub overflow: u8,
}

// The answer of fresh, tick, start, stop, clear and restore.
#[repr(C)]
#[derive(Clone, Copy)]
pub struct PanelAnswer {
    pub number: u8,
    pub board: PanelBoard,
}

// The answer of a report. Its verdict: 0 none, 1 passed, 2 failed.
#[repr(C)]
#[derive(Clone, Copy)]
pub struct PanelReport {
    pub number: u8,
    pub verdict: u8,
    pub board: PanelBoard,
}

// The answer of read status.
#[repr(C)]
#[derive(Clone, Copy)]
pub struct PanelStatus {
    pub number: u8,
    pub status: u8,
}

// The answer of read counter.
#[repr(C)]
#[derive(Clone, Copy)]
pub struct PanelCounter {
    pub number: u8,
    pub counter: i8,
}

// The answer of read missing.
#[repr(C)]
#[derive(Clone, Copy)]
pub struct PanelMissing {
    pub number: u8,
    pub count: u32,
    pub lowest: u32,
}

// The answer of read table: cycle by cycle, bit 0 first.
#[repr(C)]
#[derive(Clone, Copy)]
pub struct PanelTable {
    pub number: u8,
    pub counts: [u16; manual::CYCLES * manual::BITS],
}

// The answer of read paint. The paint: 0 grey, 1 red, 2 live.
#[repr(C)]
#[derive(Clone, Copy)]
pub struct PanelPaint {
    pub number: u8,
    pub paint: u8,
}

// The answer of read frame: where the frame starts in the caller's own memory block, and its length.
#[repr(C)]
#[derive(Clone, Copy)]
pub struct PanelFrame {
    pub number: u8,
    pub start: usize,
    pub length: usize,
}

// The answer of save and of list grey: how many bytes of the room, or numbers of the list, were written.
#[repr(C)]
#[derive(Clone, Copy)]
pub struct PanelLength {
    pub number: u8,
    pub length: usize,
}

// The answer of a diagnostic request.
#[repr(C)]
#[derive(Clone, Copy)]
pub struct PanelRequest {
    pub number: u8,
    pub length: usize,
    pub board: PanelBoard,
}

// ---- the board in bytes

// 0 no, anything else yes.
fn flag(byte: u8) -> bool
    ensures { result ≡ yes byte }
{
    byte != 0
}

// 1 yes, 0 no.
fn byte_of(flag: bool) -> u8
    ensures { result ≡ flag_byte flag }
{
    u8::from(flag)
}

// The board that these bytes stand for.
impl From<PanelBoard> for Board {
    ghost from_gives = { λ bytes board. board ≡ board_of bytes };

    fn from(bytes: PanelBoard) -> Board {
        Board {
            running: bytes.running.map(flag),
            overflow: flag(bytes.overflow),
        }
    }
}

// The bytes of a board.
impl From<Board> for PanelBoard {
    ghost from_gives = { λ board bytes. bytes ≡ bytes_of board };

    fn from(board: Board) -> PanelBoard {
        PanelBoard {
            running: board.running.map(byte_of),
            overflow: byte_of(board.overflow),
        }
    }
}

// Document 02, W6: "Reading a frame takes a choice of which": 0 the first, anything else the latest.
fn which_of(choice: u32) -> Which
    ensures { result ≡ which_of choice }
{
    if choice == 0 {
        Which::First
    } else {
        Which::Latest
    }
}

// "A refusal … hands back the board it was given": byte for byte.
fn handed_back(number: u8, after: Board, found: PanelBoard) -> PanelBoard
    ensures { result ≡ cond (eqb number 0) (bytes_of after) found }
{
    let new = PanelBoard::from(after);
    if number == 0 { new } else { found }
}

// ---- the answers in numbers

// "Each accepted report gives a verdict: none, passed or failed."
fn verdict_number(verdict: Verdict) -> u8
    ensures { result ≡ verdict_number verdict }
{
    match verdict {
        Verdict::None => 0,
        Verdict::Passed => 1,
        Verdict::Failed => 2,
    }
}

// "grey if …, else red if …, else live"
fn paint_number(paint: Paint) -> u8
    ensures { result ≡ paint_number paint }
{
    match paint {
        Paint::Grey => 0,
        Paint::Red => 1,
        Paint::Live => 2,
    }
}

// ---- what a call answers, as it crosses

// Fresh, tick, start, stop, clear and restore.
fn answer_of(answer: Result<(), Refusal>, after: Board, found: PanelBoard) -> PanelAnswer
    ensures { (records : List ℕ) (debounce : List ℤ) (memory : List ℕ) (b : Beside)
        → with_answer records debounce memory b result
        ≡ crosses (leaves (of_answer answer) [] b (lent records debounce memory after)) found }
{
    let number = answers::number(answer);
    PanelAnswer {
        number,
        board: handed_back(number, after, found),
    }
}

// A report.
fn report_of(answer: Result<Verdict, Refusal>, after: Board, found: PanelBoard) -> PanelReport
    ensures { (records : List ℕ) (debounce : List ℤ) (memory : List ℕ) (b : Beside)
        → with_report records debounce memory b result
        ≡ crosses (leaves (of_report answer) [] b (lent records debounce memory after)) found }
{
    let number = answers::number(answer);
    PanelReport {
        number,
        verdict: verdict_number(answer.unwrap_or(Verdict::None)),
        board: handed_back(number, after, found),
    }
}

// A diagnostic request.
fn request_of(answer: Result<usize, Refusal>, after: Board, found: PanelBoard) -> PanelRequest
    ensures { (records : List ℕ) (debounce : List ℤ) (memory : List ℕ) (b : Beside)
        → with_request records debounce memory b result
        ≡ crosses (leaves (of_length answer) [] b (lent records debounce memory after)) found }
{
    let number = answers::number(answer);
    PanelRequest {
        number,
        length: answer.unwrap_or(0),
        board: handed_back(number, after, found),
    }
}

// Read status hands back no board.
impl From<Result<u8, Refusal>> for PanelStatus {
    ghost from_gives = { λ answer panel. (s : State) (found : PanelBoard)
        → with_status s.records s.debounce s.memory found panel
        ≡ crosses_without_board (leaves (of_status answer) [] alone s) found };

    fn from(answer: Result<u8, Refusal>) -> PanelStatus {
        PanelStatus {
            number: answers::number(answer),
            status: answer.unwrap_or(0),
        }
    }
}

// Read counter hands back no board.
impl From<Result<i8, Refusal>> for PanelCounter {
    ghost from_gives = { λ answer panel. (s : State) (found : PanelBoard)
        → with_counter s.records s.debounce s.memory found panel ≡ crosses_with_counter (tells answer s) found };

    fn from(answer: Result<i8, Refusal>) -> PanelCounter {
        PanelCounter {
            number: answers::number(answer),
            counter: answer.unwrap_or(0),
        }
    }
}

// Read missing hands back no board.
impl From<Result<StillMissing, Refusal>> for PanelMissing {
    ghost from_gives = { λ answer panel. (s : State) (found : PanelBoard)
        → with_missing s.records s.debounce s.memory found panel
        ≡ crosses_with_missing (tells_missing answer s) found };

    fn from(answer: Result<StillMissing, Refusal>) -> PanelMissing {
        let still = answer.unwrap_or(StillMissing {
            count: 0,
            lowest: 0,
        });
        PanelMissing {
            number: answers::number(answer),
            count: still.count,
            lowest: still.lowest,
        }
    }
}

// Read table hands back no board.
impl From<Result<[u16; manual::CYCLES * manual::BITS], Refusal>> for PanelTable {
    ghost from_gives = { λ answer panel. (s : State) (found : PanelBoard)
        → with_table s.records s.debounce s.memory found panel ≡ crosses_with_table (table_told answer s) found };

    fn from(answer: Result<[u16; manual::CYCLES * manual::BITS], Refusal>) -> PanelTable {
        PanelTable {
            number: answers::number(answer),
            counts: answer.unwrap_or([0; manual::CYCLES * manual::BITS]),
        }
    }
}

// Read paint hands back no board.
impl From<Result<Paint, Refusal>> for PanelPaint {
    ghost from_gives = { λ answer panel. (s : State) (found : PanelBoard)
        → with_paint s.records s.debounce s.memory found panel ≡ crosses_with_paint (paint_told answer s) found };

    fn from(answer: Result<Paint, Refusal>) -> PanelPaint {
        PanelPaint {
            number: answers::number(answer),
            paint: paint_number(answer.unwrap_or(Paint::Grey)),
        }
    }
}

// Read frame hands back no board. On a refusal it starts at 0 and has no bytes: "a frame part empty".
impl From<Result<FramePart, Refusal>> for PanelFrame {
    ghost from_gives = { λ answer panel. (s : State) (found : PanelBoard)
        → with_frame s.records s.debounce s.memory found panel ≡ crosses_with_frame (says answer s) found };

    fn from(answer: Result<FramePart, Refusal>) -> PanelFrame {
        let part = answer.unwrap_or(FramePart {
            start: 0,
            length: 0,
        });
        PanelFrame {
            number: answers::number(answer),
            start: part.start,
            length: part.length,
        }
    }
}

// Save and list grey hand back no board.
impl From<Result<usize, Refusal>> for PanelLength {
    ghost from_gives = { λ answer panel. (s : State) (room : List ℕ) (found : PanelBoard)
        → with_length s.records s.debounce s.memory room found panel
        ≡ crosses_without_board (leaves (of_length answer) [] (lent_room room) s) found };

    fn from(answer: Result<usize, Refusal>) -> PanelLength {
        let length = answer.unwrap_or(0);
        PanelLength {
            number: answers::number(answer),
            length,
        }
    }
}

// ---- the sixteen calls

// "Fresh: status 50h, K = h = g = 0, D = 0, memory empty (all bytes 0), cycles stopped, overflow clear."
#[unsafe(no_mangle)]
pub extern "C" fn grelpicado_fresh(
    cfg: &[i32],
    records: &mut [u8],
    debounce: &mut [i32],
    memory: &mut [u8],
    board: PanelBoard,
    counts: &mut [u32],
) -> PanelAnswer
    ensures { with_answer records.new debounce.new memory.new
        (lent_counts counts.new) result
        ≡ crosses
        (fresh cfg.now (lent_counts counts.old)
        (lent records.old debounce.old memory.old (board_of board)))
        board }
{
    let mut state = LentMut {
        records,
        debounce,
        memory,
        board: Board::from(board),
    };
    let answer = fresh_state::fresh(cfg, &mut state, counts);
    answer_of(answer, state.board, board)
}

// "Each accepted report gives a verdict: none, passed or failed."
#[unsafe(no_mangle)]
pub extern "C" fn grelpicado_report(
    cfg: &[i32],
    records: &mut [u8],
    debounce: &mut [i32],
    memory: &mut [u8],
    board: PanelBoard,
    event: usize,
    code: u32,
    frame: &[u8],
    present: u32,
    counts: &mut [u32],
) -> PanelReport
    ensures { with_report records.new debounce.new memory.new
        (lent_counts counts.new) result
        ≡ crosses
        (report cfg.now event code frame.now present (lent_counts counts.old)
        (lent records.old debounce.old memory.old (board_of board)))
        board }
{
    let mut state = LentMut {
        records,
        debounce,
        memory,
        board: Board::from(board),
    };
    let given = Report {
        event: EventNumber(event),
        code,
        frame,
        present,
    };
    let answer = reporting::report(cfg, &mut state, &given, counts);
    report_of(answer, state.board, board)
}

// "Every event so qualified takes the lent frame."
#[unsafe(no_mangle)]
pub extern "C" fn grelpicado_tick(
    cfg: &[i32],
    records: &mut [u8],
    debounce: &mut [i32],
    memory: &mut [u8],
    board: PanelBoard,
    ms: u32,
    frame: &[u8],
    present: u32,
    counts: &mut [u32],
) -> PanelAnswer
    ensures { with_answer records.new debounce.new memory.new
        (lent_counts counts.new) result
        ≡ crosses
        (tick cfg.now ms frame.now present (lent_counts counts.old)
        (lent records.old debounce.old memory.old (board_of board)))
        board }
{
    let mut state = LentMut {
        records,
        debounce,
        memory,
        board: Board::from(board),
    };
    let given = Tick { ms, frame, present };
    let answer = reporting::tick(cfg, &mut state, &given, counts);
    answer_of(answer, state.board, board)
}

// "Start of a stopped cycle: for its events clears 1, sets 6."
#[unsafe(no_mangle)]
pub extern "C" fn grelpicado_start(
    cfg: &[i32],
    records: &mut [u8],
    debounce: &[i32],
    memory: &[u8],
    board: PanelBoard,
    cycle: u32,
) -> PanelAnswer
    ensures { with_answer records.new debounce.now memory.now alone result
        ≡ crosses
        (start_cycle cfg.now cycle alone
        (lent records.old debounce.now memory.now (board_of board)))
        board }
{
    let mut after = Board::from(board);
    let answer = cycles::start(cfg, records, debounce, memory, &mut after, cycle);
    answer_of(answer, after, board)
}

// The call that stops a cycle.
#[unsafe(no_mangle)]
pub extern "C" fn grelpicado_stop(
    cfg: &[i32],
    records: &mut [u8],
    debounce: &mut [i32],
    memory: &mut [u8],
    board: PanelBoard,
    cycle: u32,
    counts: &mut [u32],
) -> PanelAnswer
    ensures { with_answer records.new debounce.new memory.new
        (lent_counts counts.new) result
        ≡ crosses
        (stop_cycle cfg.now cycle (lent_counts counts.old)
        (lent records.old debounce.old memory.old (board_of board)))
        board }
{
    let mut state = LentMut {
        records,
        debounce,
        memory,
        board: Board::from(board),
    };
    let answer = cycles::stop(cfg, &mut state, cycle, counts);
    answer_of(answer, state.board, board)
}

// "Clear, by one trouble code or FFFFFFh for all, in any cycle state"
#[unsafe(no_mangle)]
pub extern "C" fn grelpicado_clear(
    cfg: &[i32],
    records: &mut [u8],
    debounce: &mut [i32],
    memory: &mut [u8],
    board: PanelBoard,
    code: u32,
    counts: &mut [u32],
) -> PanelAnswer
    ensures { with_answer records.new debounce.new memory.new
        (lent_counts counts.new) result
        ≡ crosses
        (clear_code cfg.now code (lent_counts counts.old)
        (lent records.old debounce.old memory.old (board_of board)))
        board }
{
    let mut state = LentMut {
        records,
        debounce,
        memory,
        board: Board::from(board),
    };
    let answer = clearing::clear(cfg, &mut state, code, counts);
    answer_of(answer, state.board, board)
}

// The event's status byte.
#[unsafe(no_mangle)]
pub extern "C" fn grelpicado_read_status(
    cfg: &[i32],
    records: &[u8],
    debounce: &[i32],
    memory: &[u8],
    board: PanelBoard,
    event: usize,
) -> PanelStatus
    ensures { with_status records.now debounce.now memory.now board result
        ≡ crosses_without_board
        (read_status cfg.now event alone
        (lent records.now debounce.now memory.now (board_of board)))
        board }
{
    let state = Lent {
        records,
        debounce,
        memory,
        board: Board::from(board),
    };
    PanelStatus::from(queries::read_status(cfg, &state, EventNumber(event)))
}

// Document 02, W1: the event's fault detection counter.
#[unsafe(no_mangle)]
pub extern "C" fn grelpicado_read_counter(
    cfg: &[i32],
    records: &[u8],
    debounce: &[i32],
    memory: &[u8],
    board: PanelBoard,
    event: usize,
) -> PanelCounter
    ensures { with_counter records.now debounce.now memory.now board result
        ≡ crosses_with_counter
        (counter_read cfg.now event alone
        (lent records.now debounce.now memory.now (board_of board)))
        board }
{
    let state = Lent {
        records,
        debounce,
        memory,
        board: Board::from(board),
    };
    PanelCounter::from(queries::read_counter(cfg, &state, EventNumber(event)))
}

// Document 02, W5: "how many of the conditions it needs are still missing, and the lowest missing number".
#[unsafe(no_mangle)]
pub extern "C" fn grelpicado_read_missing(
    cfg: &[i32],
    records: &[u8],
    debounce: &[i32],
    memory: &[u8],
    board: PanelBoard,
    event: usize,
    present: u32,
) -> PanelMissing
    ensures { with_missing records.now debounce.now memory.now board result
        ≡ crosses_with_missing
        (missing_read cfg.now event present alone
        (lent records.now debounce.now memory.now (board_of board)))
        board }
{
    let state = Lent {
        records,
        debounce,
        memory,
        board: Board::from(board),
    };
    PanelMissing::from(queries::read_missing(cfg, &state, EventNumber(event), present))
}

// Document 02, W10: "for each of the four cycles and each of the eight bits, the events of that cycle with the bit
// set".
#[unsafe(no_mangle)]
pub extern "C" fn grelpicado_read_table(
    cfg: &[i32],
    records: &[u8],
    debounce: &[i32],
    memory: &[u8],
    board: PanelBoard,
) -> PanelTable
    ensures { with_table records.now debounce.now memory.now board result
        ≡ crosses_with_table
        (table_read cfg.now alone
        (lent records.now debounce.now memory.now (board_of board)))
        board }
{
    let state = Lent {
        records,
        debounce,
        memory,
        board: Board::from(board),
    };
    PanelTable::from(untested::read_table(cfg, &state))
}

// Document 02, W10: "grey if bit 6 is set or its cycle is stopped, else red if bit 0 is set, else live".
#[unsafe(no_mangle)]
pub extern "C" fn grelpicado_read_paint(
    cfg: &[i32],
    records: &[u8],
    debounce: &[i32],
    memory: &[u8],
    board: PanelBoard,
    event: usize,
) -> PanelPaint
    ensures { with_paint records.now debounce.now memory.now board result
        ≡ crosses_with_paint
        (paint_read cfg.now event alone
        (lent records.now debounce.now memory.now (board_of board)))
        board }
{
    let state = Lent {
        records,
        debounce,
        memory,
        board: Board::from(board),
    };
    PanelPaint::from(untested::read_paint(cfg, &state, EventNumber(event)))
}

// Document 02, W10: "List the grey events in rising order, complete, into a lent slice of 16-bit numbers".
#[unsafe(no_mangle)]
pub extern "C" fn grelpicado_list_grey(
    cfg: &[i32],
    records: &[u8],
    debounce: &[i32],
    memory: &[u8],
    board: PanelBoard,
    list: &mut [u16],
) -> PanelLength
    ensures { with_length records.now debounce.now memory.now list.new board result
        ≡ crosses_without_board
        (list_grey cfg.now (lent_room list.old)
        (lent records.now debounce.now memory.now (board_of board)))
        board }
{
    let state = Lent {
        records,
        debounce,
        memory,
        board: Board::from(board),
    };
    PanelLength::from(untested::list_grey(cfg, &state, list))
}

// "The stored frame is read as a part of the caller's own memory block, no copy.": the first or the latest.
#[unsafe(no_mangle)]
pub extern "C" fn grelpicado_read_frame(
    cfg: &[i32],
    records: &[u8],
    debounce: &[i32],
    memory: &[u8],
    board: PanelBoard,
    event: usize,
    which: u32,
) -> PanelFrame
    ensures { with_frame records.now debounce.now memory.now board result
        ≡ crosses_with_frame
        (frame_read cfg.now event (which_of which)
        (lent records.now debounce.now memory.now (board_of board)))
        board }
{
    let state = Lent {
        records,
        debounce,
        memory,
        board: Board::from(board),
    };
    let chosen = which_of(which);
    PanelFrame::from(queries::read_frame(cfg, &state, EventNumber(event), chosen))
}

// "Save writes the image, no more, and answers its length."
#[unsafe(no_mangle)]
pub extern "C" fn grelpicado_save(
    cfg: &[i32],
    records: &[u8],
    debounce: &[i32],
    memory: &[u8],
    board: PanelBoard,
    room: &mut [u8],
) -> PanelLength
    ensures { with_length records.now debounce.now memory.now room.new board result
        ≡ crosses_without_board
        (save cfg.now (lent_room room.old)
        (lent records.now debounce.now memory.now (board_of board)))
        board }
{
    let state = Lent {
        records,
        debounce,
        memory,
        board: Board::from(board),
    };
    PanelLength::from(image::save(cfg, &state, room))
}

// "Restore accepts exactly the images of well-formed states with all cycles stopped, and makes that state."
#[unsafe(no_mangle)]
pub extern "C" fn grelpicado_restore(
    cfg: &[i32],
    records: &mut [u8],
    debounce: &mut [i32],
    memory: &mut [u8],
    board: PanelBoard,
    image: &[u8],
    counts: &mut [u32],
) -> PanelAnswer
    ensures { with_answer records.new debounce.new memory.new
        (lent_counts counts.new) result
        ≡ crosses
        (restore cfg.now image.now (lent_counts counts.old)
        (lent records.old debounce.old memory.old (board_of board)))
        board }
{
    let mut state = LentMut {
        records,
        debounce,
        memory,
        board: Board::from(board),
    };
    let answer = image::restore(cfg, &mut state, image, counts);
    answer_of(answer, state.board, board)
}

// The diagnostic request: writes the reply at the front of the room, and answers its length.
#[unsafe(no_mangle)]
pub extern "C" fn grelpicado_request(
    cfg: &[i32],
    records: &mut [u8],
    debounce: &mut [i32],
    memory: &mut [u8],
    board: PanelBoard,
    request: &[u8],
    room: &mut [u8],
    counts: &mut [u32],
) -> PanelRequest
    ensures { with_request records.new debounce.new memory.new
        (lent_both room.new counts.new) result
        ≡ crosses
        (request_reply cfg.now request.now (lent_both room.old counts.old)
        (lent records.old debounce.old memory.old (board_of board)))
        board }
{
    let mut state = LentMut {
        records,
        debounce,
        memory,
        board: Board::from(board),
    };
    let answer = diagnostics::request(cfg, &mut state, request, room, counts);
    request_of(answer, state.board, board)
}
