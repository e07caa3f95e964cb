// The page of a log: its calls made on the manager as the replay program makes them, and the page of the state after
// the last put into a buffer.
#![tactic(auto)]

ghost use Rattle.std.specs.Prelude.{IfOk, ◌≡◌, ◌≤◌, ◌<◌, length};
ghost use Rattle.manual.specs.State.{State};
ghost use Rattle.manual.specs.Lent.{as_lent};
ghost use Rattle.replay_step.specs.Beginning.{beginning};
ghost use Rattle.replay_step.specs.Turn.{made, Playable, Buffers};
ghost use Rattle.page_text.specs.Text.{Puts};
ghost use Rattle.page_text.specs.Page.{HasRoom, Adds};
ghost use Rattle.page_names.specs.Names.{most_names};
ghost use Rattle.page_story.specs.Story.{at_first, after_call, ended, one_turn, turns, played, so_far, Blocks};
ghost use Rattle.page_story.specs.Page.{meta_part, text_style, paint_style, table_style, head, log_of, shown};
ghost use Rattle.page_story.specs.Page.{no_state, refused_configuration, unreadable_log, rest, page, most_log, Room};

use manual::LentMut;
use page_body::Log;
use page_heads::Unused;
use page_text::Page;
use replay_step::{Begun, Stepped};
use std::fs::File;
use std::os::fd::AsRawFd;
use std::rt::Files;
use transcript::Cursor;

// ---- the calls

// How far the log is played beside the state: the cursor behind the last call, whether a further call may follow, how
// many were made and how many of these were refused, the answer of the last, and whether what follows cannot be read.
#[derive(Clone, Copy)]
struct Played {
    next: Cursor,
    more: bool,
    made: usize,
    refused: usize,
    last: u8,
    bad: bool,
}

fn after_call(played: Played, next: Cursor, answer: u8) -> Played
    requires { (played.made < most_log) × (played.refused < most_log) }
    ensures { (s t : State) → so_far t result ≡ after_call (so_far s played) next (made answer t) }
{
    Played {
        next,
        more: true,
        made: played.made + 1,
        refused: writing::one_more_if(answer != 0, played.refused),
        last: answer,
        bad: false,
    }
}

fn ended(played: Played, bad: bool) -> Played
    ensures { (s t : State) → so_far t result ≡ ended (so_far s played) t bad }
{
    Played {
        more: false,
        bad,
        ..played
    }
}

// One call.
fn turn(cfg: &[i32], state: &mut LentMut, played: Played, text: &[u8], line: &mut [u8]) -> Played
    requires { (Playable cfg.now state.old.records.now line.old) × (played.made < most_log)
        × (played.refused < most_log) }
    ensures promise { so_far (as_lent state.new) result
        ≡ one_turn cfg.now text.now (so_far (as_lent state.old) played) }
    ensures as_long { length state.new.records.now ≡ length state.old.records.now }
{
    match replay_step::step(cfg, state, text, played.next, line) {
        Stepped::Line(_, answer, next) => after_call(played, next, answer),
        Stepped::End => ended(played, false),
        Stepped::BadInput => ended(played, true),
    }
}

// The calls of the text from the cursor on.
fn turns(cfg: &[i32], state: &mut LentMut, text: &[u8], from: Cursor, line: &mut [u8]) -> Played
    requires { (Playable cfg.now state.old.records.now line.old) × (length text.now ≤ most_log) }
    ensures { so_far (as_lent state.new) result
        ≡ turns cfg.now text.now (length text.now) (at_first (as_lent state.old) from.at) }
{
    let mut played = Played {
        next: from,
        more: true,
        made: 0,
        refused: 0,
        last: 0,
        bad: false,
    };
    for _turn in 0..text.len() {
        if !played.more {
            return played;
        }
        played = turn(cfg, state, played, text, line);
    }
    played
}

// A fresh state in blocks of the exact lengths, then the calls.
fn play(cfg: &[i32], state: &mut LentMut, text: &[u8], from: Cursor) -> Played
    requires { (Blocks cfg.now state.old.records.now state.old.debounce.now state.old.memory.now)
        × (length text.now ≤ most_log) }
    ensures { so_far (as_lent state.new) result ≡ played cfg.now text.now from.at }
{
    let mut line = [0; 2052];
    let mut counts = [0; manual::COUNTS];
    let _ = fresh_state::fresh(cfg, state, &mut counts);
    turns(cfg, state, text, from, &mut line)
}

// ---- the page

// What is told of the log beside the state.
fn log_of(played: Played, unused: Option<Unused>) -> Log
    requires { (played.made ≤ most_log) × (played.refused ≤ most_log) × (played.next.at ≤ most_log) }
    ensures { (s : State) → result ≡ log_of unused (so_far s played) }
{
    let next = played.next;
    Log {
        made: played.made as u16,
        refused: played.refused as u16,
        last: played.last as u16,
        bad: if played.bad {
            Some(next.at as u16)
        } else {
            None
        },
        unused,
    }
}

// The fresh state, the calls, and the page of the state that they leave.
fn story(
    page: &mut Page,
    cfg: &[i32],
    records: &mut [u8],
    debounce: &mut [i32],
    memory: &mut [u8],
    text: &[u8],
    from: Cursor,
    names: &[u8],
    unused: Option<Unused>,
)
    requires { (Buffers cfg.now records.old debounce.old memory.old) × (from.at ≤ length text.now)
        × (Room text.now names.now page.old.at 2003000 page.old.buffer.now) }
    ensures { Adds (shown cfg.now names.now unused
        (played cfg.now text.now from.at))
        2003000 page.old page.new }
{
    let n = config::events(cfg);
    let used = memory::memory_length(config::places(cfg), memory::entry_frames(cfg));
    let mut state = LentMut {
        records: &mut records[..manual::RECORD_WIDTH * n],
        debounce: &mut debounce[..n],
        memory: &mut memory[..used],
        board: fresh_state::stopped_board(false),
    };
    let told = play(cfg, &mut state, text, from);
    let log = log_of(told, unused);
    page_body::body(page, cfg, &state.as_found(), names, log);
}

// ---- its style

fn put_meta(page: &mut Page)
    requires { HasRoom 400 page.old }
    ensures { Adds meta_part 400 page.old page.new }
{
    page.put(b"<!doctype html>\n<html lang=\"en\">\n<meta charset=\"utf-8\">\n");
    page.put(
        b"<meta name=\"viewport\" content=\"width=device-width, initial-scale=1\">\n<style>\n",
    );
    page.put(
        b":root{color-scheme:light dark;--line:#8884;--grey:#5f6570;--red:#c62828;--live:#1b7f4d}\n",
    );
}

fn put_texts(page: &mut Page)
    requires { HasRoom 600 page.old }
    ensures { Adds text_style 600 page.old page.new }
{
    page.put(
        b"body{font:16px/1.45 system-ui,sans-serif;margin:0 auto;max-width:60rem;padding:1rem}\n",
    );
    page.put(
        b"h1{font-size:1.5rem;margin:.2rem 0 1rem}\nh2{font-size:1.05rem;margin:1.6rem 0 .5rem}\n",
    );
    page.put(b".message{border-left:.3rem solid var(--red);padding:.2rem .8rem;font-weight:600}\n");
    page.put(b".code{font-family:ui-monospace,monospace;opacity:.75;white-space:nowrap}\n");
    page.put(
        b".bits{font-size:.85rem;opacity:.85}\nprogress{width:5rem;vertical-align:middle;accent-color:#b26a00}\n",
    );
}

fn put_paints(page: &mut Page)
    requires { HasRoom 600 page.old }
    ensures { Adds paint_style 600 page.old page.new }
{
    page.put(
        b".grey{background:var(--grey)}.red{background:var(--red)}.live{background:var(--live)}\n",
    );
    page.put(
        b".tiles{display:flex;gap:.6rem}\n.tile{flex:1;border-radius:.5rem;padding:.6rem .9rem;color:#fff}\n",
    );
    page.put(
        b".tile b{display:block;font-size:2rem;line-height:1.1}\n.paint{display:inline-block;min-width:3rem;",
    );
    page.put(b"text-align:center;border-radius:.3rem;color:#fff;padding:.05rem .4rem}\n");
}

fn put_tables(page: &mut Page)
    requires { HasRoom 600 page.old }
    ensures { Adds table_style 600 page.old page.new }
{
    page.put(
        b".wide{overflow-x:auto}\ntable{border-collapse:collapse;width:100%}\nth,td{padding:.35rem .5rem;",
    );
    page.put(
        b"border-bottom:1px solid var(--line);text-align:left;vertical-align:top}\nth{font-weight:600}\n",
    );
    page.put(
        b"td.n,th.n{text-align:right;font-variant-numeric:tabular-nums}\n.near{white-space:nowrap}\n",
    );
    page.put(
        b"th[scope=col]{font-size:.85rem}\ntd:first-child,th:first-child{width:1%;white-space:nowrap}\n",
    );
    page.put(
        b"@media print{html,body{font-size:11px;max-width:none}.wide{overflow:visible}.tile,.paint{color:#000;",
    );
    page.put(b"background:none;border:1px solid #000}}\n</style>\n");
}

fn put_head(page: &mut Page)
    requires { HasRoom 2200 page.old }
    ensures { Adds head 2200 page.old page.new }
{
    put_meta(page);
    put_texts(page);
    put_paints(page);
    put_tables(page);
}

// ---- a log without a state

fn put_bad(page: &mut Page, why: &[u8])
    requires { (length why.now ≤ 200) × (HasRoom 400 page.old) }
    ensures { Adds (no_state why.now) 400 page.old page.new }
{
    page.put(b"<title>Bad input</title>\n<h1>Bad input</h1>\n<p class=\"message\">");
    page.put(why);
    page.put(b" There is no state to show.</p>\n");
}

fn put_unreadable(page: &mut Page, longer: bool)
    requires { HasRoom 400 page.old }
    ensures { Adds (unreadable_log longer) 400 page.old page.new }
{
    if longer {
        put_bad(page, b"The log is longer than 32,768 bytes.")
    } else {
        put_bad(
            page,
            b"The log does not begin with a count of configuration numbers, 7,171 at most, and so many numbers.",
        )
    }
}

// ---- all of it

// How long the buffer must be.
pub const MOST_PAGE: usize = 2010000;

fn put_rest(page: &mut Page, text: &[u8], longer: bool, names: &[u8], unused: Option<Unused>)
    requires { Room text.now names.now page.old.at 2003000 page.old.buffer.now }
    ensures { Adds
        (rest longer text.now names.now unused (beginning longer text.now))
        2003000 page.old page.new }
{
    let mut cfg = [0; manual::MOST_NUMBERS];
    let mut records = [0; manual::MOST_RECORDS];
    let mut debounce = [0; manual::MOST_EVENTS];
    let mut memory = [0; manual::MOST_MEMORY];
    match replay_step::begin(text, longer, &mut cfg) {
        Begun::Ready(count, next) => story(
            page,
            &cfg[..count],
            &mut records,
            &mut debounce,
            &mut memory,
            text,
            next,
            names,
            unused,
        ),
        Begun::Refused => put_bad(
            page,
            b"The configuration of the log is refused, with answer 2: it breaks the table of allowed numbers.",
        ),
        Begun::Unreadable => put_unreadable(page, longer),
    }
}

// Puts the page of a log and a names file at the front of the buffer, and answers its length. `longer` says that the
// log is longer than the text, `unused` why there are no names.
pub fn page(
    buffer: &mut [u8],
    text: &[u8],
    longer: bool,
    names: &[u8],
    unused: Option<Unused>,
) -> usize
    requires { Room text.now names.now 0 2010000 buffer.old }
    ensures { Puts (page longer text.now names.now unused) 2010000 0 result
        buffer.old buffer.new }
{
    let mut page = Page { buffer, at: 0 };
    put_head(&mut page);
    put_rest(&mut page, text, longer, names, unused);
    page.put(b"</html>\n");
    page.at
}

// ---- the names file

const MOST_NAMES: usize = 65535;

// Reads the file of this path, and answers how many bytes of names were read, or why there are none. Its end is found
// where a byte more than the most is asked for and not read.
pub fn read_names(
    rt: &impl Files<File = File>,
    path: &[u8],
    names: &mut [u8],
) -> Result<usize, Unused>
    ensures { IfOk result (λ size. (size ≤ most_names) × (size ≤ length names.new)) }
{
    let Some(file) = files::open_read(rt, path) else {
        return Err(Unused::Unreadable);
    };
    let length = io::read_full(file.as_raw_fd(), names);
    drop(file);
    if MOST_NAMES < length {
        return Err(Unused::TooLong);
    }
    Ok(length)
}
