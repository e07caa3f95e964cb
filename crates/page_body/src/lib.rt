// The page below its style: every part of it put into a page, in their order.
#![tactic(auto)]

ghost use Rattle.std.specs.Prelude.{◌≡◌, true, List, ℕ, ◌+◌, ◌≤◌, ℤ, length};
ghost use Rattle.manual.specs.Configuration.{config_ok};
ghost use Rattle.judgement.specs.Fits.{RecordsFor};
ghost use Rattle.manual.specs.State.{lent};
ghost use Rattle.manual.specs.Lent.{as_found};
ghost use Rattle.page_text.specs.Page.{HasRoom, Adds};
ghost use Rattle.page_names.specs.Names.{most_names};
ghost use Rattle.page_rows.specs.Rows.{paint_number, Shown};
ghost use Rattle.page_body.specs.Body.{painted, top, cycles_head, cycles_head_end, four_cycles, cycles_part};
ghost use Rattle.page_body.specs.Body.{memory_part, rows_of, list_of, paint_list, paint_section, all_head, all_section};
ghost use Rattle.page_body.specs.Body.{messages, log_part, upper, lower, body};

use manual::{Board, EventNumber, Lent, Paint};
use page_heads::{Totals, Unused};
use page_rows::Listing;
use page_text::Page;

// What is told of the log beside the state: how many calls were made and how many of them were refused, the answer of
// the last; behind which byte it is bad; why no name is shown.
#[derive(Clone, Copy)]
pub struct Log {
    pub made: u16,
    pub refused: u16,
    pub last: u16,
    pub bad: Option<u16>,
    pub unused: Option<Unused>,
}

// A section that lists the signals of one paint: its heading, and what it says where there are none.
#[derive(Clone, Copy)]
struct Section<'a> {
    heading: &'a [u8],
    listing: Listing,
    paint: Paint,
    none: &'a [u8],
}

// ---- how many signals are untested, failed, live

// How many signals have a paint.
fn painted(cfg: &[i32], records: &[u8], board: Board, paint: Paint) -> u16
    requires { RecordsFor cfg.now records.now }
    ensures { (d : List ℤ) (m : List ℕ)
        → result ≡ painted cfg.now (lent records.now d m board) (paint_number paint) }
{
    let n = config::events(cfg);
    let mut number = 0;
    for event in 0..n {
        let own = untested::paint_of(cfg, records, board, EventNumber(event));
        number = writing::one_more_if(
            page_rows::paint_number(own) == page_rows::paint_number(paint),
            number,
        );
    }
    number as u16
}

// "At the top, in words: how many signals are untested, failed, live"
fn top(page: &mut Page, cfg: &[i32], state: &Lent, names: &[u8])
    requires { (Shown cfg.now (as_found state.now)) × (length names.now ≤ most_names)
        × (HasRoom 400 page.old) }
    ensures { Adds
        (top cfg.now
        (as_found state.now))
        400 page.old page.new }
{
    let untested = painted(cfg, state.records, state.board, Paint::Grey);
    let failed = painted(cfg, state.records, state.board, Paint::Red);
    let live = painted(cfg, state.records, state.board, Paint::Live);
    let totals = Totals {
        untested,
        failed,
        live,
    };
    let n = config::events(cfg);
    page_heads::title(page, totals);
    page_heads::headline(page, n as u16, totals);
    page_heads::tiles(page, totals);
}

// ---- the lists

// The rows of a list, one signal after the other.
fn rows(page: &mut Page, listing: Listing, cfg: &[i32], state: &Lent, names: &[u8])
    requires { (Shown cfg.now (as_found state.now)) × (length names.now ≤ most_names)
        × (HasRoom 665600 page.old) }
    ensures { Adds
        (rows_of cfg.now names.now
        (as_found state.now) listing)
        665600 page.old page.new }
{
    let n = config::events(cfg);
    for event in 0..n {
        page_rows::part(page, listing, cfg, state, names, EventNumber(event));
    }
}

fn list(page: &mut Page, listing: Listing, cfg: &[i32], state: &Lent, names: &[u8])
    requires { (Shown cfg.now (as_found state.now)) × (length names.now ≤ most_names)
        × (HasRoom 665700 page.old) }
    ensures { Adds
        (list_of cfg.now names.now
        (as_found state.now) listing)
        665700 page.old page.new }
{
    page.put(b"<div class=\"wide\"><table>\n");
    rows(page, listing, cfg, state, names);
    page.put(b"</table></div>\n");
}

// "Empty parts say that they are empty"
fn paint_list(page: &mut Page, section: &Section, cfg: &[i32], state: &Lent, names: &[u8])
    requires { (Shown cfg.now (as_found state.now)) × (length names.now ≤ most_names)
        × (length section.now.none.now ≤ 100) × (HasRoom 665700 page.old) }
    ensures { Adds
        (paint_list cfg.now names.now (as_found state.now)
        section.now.listing (paint_number section.now.paint) section.now.none.now)
        665700 page.old page.new }
{
    if painted(cfg, state.records, state.board, section.paint) == 0 {
        page.put(section.none)
    } else {
        list(page, section.listing, cfg, state, names)
    }
}

fn paint_section(page: &mut Page, section: &Section, cfg: &[i32], state: &Lent, names: &[u8])
    requires { (Shown cfg.now (as_found state.now)) × (length names.now ≤ most_names)
        × (length section.now.heading.now ≤ 100) × (length section.now.none.now ≤ 100)
        × (HasRoom 665800 page.old) }
    ensures { Adds
        (paint_section cfg.now names.now (as_found state.now) section.now.heading.now
        section.now.listing (paint_number section.now.paint) section.now.none.now)
        665800 page.old page.new }
{
    page.put(section.heading);
    paint_list(page, section, cfg, state, names);
}

fn all_head(page: &mut Page)
    requires { HasRoom 400 page.old }
    ensures { Adds all_head 400 page.old page.new }
{
    page.put(
        b"<h2>All signals</h2>\n<div class=\"wide\"><table>\n<tr><th scope=\"col\">paint</th>",
    );
    page.put(
        b"<th scope=\"col\">signal</th><th scope=\"col\">code</th><th scope=\"col\" class=\"n\">cycle</th>",
    );
    page.put(
        b"<th scope=\"col\">how near a fault</th><th scope=\"col\">memory</th><th scope=\"col\">status</th></tr>\n",
    );
}

// "then every event"
fn all_section(page: &mut Page, cfg: &[i32], state: &Lent, names: &[u8])
    requires { (Shown cfg.now (as_found state.now)) × (length names.now ≤ most_names)
        × (HasRoom 666100 page.old) }
    ensures { Adds
        (all_section cfg.now names.now
        (as_found state.now))
        666100 page.old page.new }
{
    all_head(page);
    rows(page, Listing::All, cfg, state, names);
    page.put(b"</table></div>\n");
}

// ---- the cycles

fn cycles_head(page: &mut Page)
    requires { HasRoom 400 page.old }
    ensures { Adds cycles_head 400 page.old page.new }
{
    page.put(
        b"<h2>Cycles and status bits</h2>\n<div class=\"wide\"><table>\n<tr><th scope=\"col\">cycle</th>",
    );
    page.put(b"<th scope=\"col\" class=\"n\">testFailed</th>");
    page.put(b"<th scope=\"col\" class=\"n\">testFailed<wbr>This<wbr>Operation<wbr>Cycle</th>");
    page.put(
        b"<th scope=\"col\" class=\"n\">pending</th><th scope=\"col\" class=\"n\">confirmed</th>",
    );
}

fn cycles_head_end(page: &mut Page)
    requires { HasRoom 400 page.old }
    ensures { Adds cycles_head_end 400 page.old page.new }
{
    page.put(
        b"<th scope=\"col\" class=\"n\">testNot<wbr>Completed<wbr>Since<wbr>Last<wbr>Clear</th>",
    );
    page.put(b"<th scope=\"col\" class=\"n\">testFailed<wbr>Since<wbr>Last<wbr>Clear</th>");
    page.put(
        b"<th scope=\"col\" class=\"n\">testNot<wbr>Completed<wbr>This<wbr>Operation<wbr>Cycle</th>",
    );
    page.put(b"<th scope=\"col\" class=\"n\">warning<wbr>Indicator<wbr>Requested</th></tr>\n");
}

// A row for each of the four cycles.
fn four_cycles(page: &mut Page, cfg: &[i32], records: &[u8], board: Board)
    requires { (config_ok cfg.now ≡ true) × (HasRoom 1040 page.old) }
    ensures { (d : List ℤ) (m : List ℕ)
        → Adds (four_cycles cfg.now (lent records.now d m board)) 1040 page.old page.new }
{
    let counts = untested::table_of(cfg, records);
    page_heads::cycle_row(page, 0, judgement::runs(board, 0), &counts[0..8]);
    page_heads::cycle_row(page, 1, judgement::runs(board, 1), &counts[8..16]);
    page_heads::cycle_row(page, 2, judgement::runs(board, 2), &counts[16..24]);
    page_heads::cycle_row(page, 3, judgement::runs(board, 3), &counts[24..32]);
}

// "then the table of four cycles by eight bits with the bits' names"
fn cycles_part(page: &mut Page, cfg: &[i32], state: &Lent, names: &[u8])
    requires { (Shown cfg.now (as_found state.now)) × (length names.now ≤ most_names)
        × (HasRoom 1900 page.old) }
    ensures { Adds
        (cycles_part cfg.now
        (as_found state.now))
        1900 page.old page.new }
{
    cycles_head(page);
    cycles_head_end(page);
    four_cycles(page, cfg, state.records, state.board);
    page.put(b"</table></div>\n");
}

// ---- memory, messages, the log

// The places of memory that are taken, and "overflow".
fn memory_part(page: &mut Page, cfg: &[i32], state: &Lent, names: &[u8])
    requires { (Shown cfg.now (as_found state.now)) × (length names.now ≤ most_names)
        × (HasRoom 200 page.old) }
    ensures { Adds
        (memory_part cfg.now
        (as_found state.now))
        200 page.old page.new }
{
    page.put(b"<h2>Memory</h2>\n");
    let taken = memory::entry_count(state.memory);
    let places = config::places(cfg);
    page_heads::memory(page, taken as u16, places as u16, state.board.overflow);
}

// What is wrong with the log or with the names file.
fn messages(page: &mut Page, names: &[u8], log: Log)
    requires { (length names.now ≤ most_names) × (HasRoom 400 page.old) }
    ensures { Adds (messages names.now log) 400 page.old page.new }
{
    page_heads::unreadable_if(page, log.bad);
    page_heads::names_unused(page, log.unused);
    page_heads::bad_name(page, page_names::first_bad(names));
}

// What the log was.
fn log_part(page: &mut Page, log: Log)
    requires { HasRoom 200 page.old }
    ensures { Adds (log_part log) 200 page.old page.new }
{
    page.put(b"<h2>The log</h2>\n");
    page_heads::calls(page, log.made, log.refused);
    page_heads::last_answer(page, log.made, log.last);
}

// ---- all of it

// What a reader looks at first.
fn upper(page: &mut Page, cfg: &[i32], state: &Lent, names: &[u8], log: Log)
    requires { (Shown cfg.now (as_found state.now)) × (length names.now ≤ most_names)
        × (HasRoom 1334000 page.old) }
    ensures { Adds
        (upper cfg.now names.now
        (as_found state.now) log)
        1334000 page.old page.new }
{
    top(page, cfg, state, names);
    messages(page, names, log);
    // "Then the untested ones by name, then the failed ones"
    let untested = Section {
        heading: b"<h2>Untested: do not trust what the panel shows for these</h2>\n",
        listing: Listing::Untested,
        paint: Paint::Grey,
        none: b"<p>None: every signal was tested since its cycle started.</p>\n",
    };
    paint_section(page, &untested, cfg, state, names);
    let failed = Section {
        heading: b"<h2>Failed</h2>\n",
        listing: Listing::Failed,
        paint: Paint::Red,
        none: b"<p>None: no tested signal failed its last test.</p>\n",
    };
    paint_section(page, &failed, cfg, state, names);
}

// The tables, memory and the log.
fn lower(page: &mut Page, cfg: &[i32], state: &Lent, names: &[u8], log: Log)
    requires { (Shown cfg.now (as_found state.now)) × (length names.now ≤ most_names)
        × (HasRoom 669000 page.old) }
    ensures { Adds
        (lower cfg.now names.now
        (as_found state.now) log)
        669000 page.old page.new }
{
    cycles_part(page, cfg, state, names);
    all_section(page, cfg, state, names);
    memory_part(page, cfg, state, names);
    log_part(page, log);
}

// The page below its style.
pub fn body(page: &mut Page, cfg: &[i32], state: &Lent, names: &[u8], log: Log)
    requires { (Shown cfg.now (as_found state.now)) × (length names.now ≤ most_names)
        × (HasRoom 2003000 page.old) }
    ensures { Adds (body cfg.now names.now
        (as_found state.now) log)
        2003000 page.old page.new }
{
    upper(page, cfg, state, names, log);
    lower(page, cfg, state, names, log);
}
