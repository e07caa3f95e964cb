// What the page tells of one signal: its values read off the lent blocks, and its rows with its name.
#![tactic(auto)]

ghost use Rattle.std.specs.Prelude.{◌≡◌, ◌+◌, ◌≤◌, length};
ghost use Rattle.manual.specs.Configuration.{code_of, cycle_of, entry_frames};
ghost use Rattle.manual.specs.Lent.{as_found};
ghost use Rattle.manual.specs.Memory.{entries_of, entry_for};
ghost use Rattle.memory.specs.Fits.{EntriesFit};
ghost use Rattle.judgement.specs.Fits.{EventIn};
ghost use Rattle.page_text.specs.Page.{HasRoom, Adds};
ghost use Rattle.page_names.specs.Names.{most_names};
ghost use Rattle.page_rows.specs.Rows.{paint_number, count_in, raised_counter, signal_of};
ghost use Rattle.page_rows.specs.Rows.{listed, part_of, OneOf};
ghost use Rattle.page_rows.specs.declared.Listing.TheVariants.{Untested, Failed};

use manual::{EventNumber, Lent, Paint};
use page_parts::Signal;
use page_text::Page;

// ---- its values

// Untested, failed, live.
pub fn paint_number(paint: Paint) -> u8
    ensures { result ≡ paint_number paint }
{
    match paint {
        Paint::Grey => 0,
        Paint::Red => 1,
        Paint::Live => 2,
    }
}

// "trouble code"
fn code_of(cfg: &[i32], event: EventNumber) -> u32
    requires { EventIn cfg.now event.0 }
    ensures { result ≡ code_of cfg.now event.0 }
{
    let code = config::code_of(cfg, event);
    code as u32
}

// "cycle"
fn cycle_of(cfg: &[i32], event: EventNumber) -> u16
    requires { EventIn cfg.now event.0 }
    ensures { result ≡ cycle_of cfg.now event.0 }
{
    let cycle = config::cycle_of(cfg, event);
    cycle as u16
}

// "fault detection counter", raised by 128.
fn raised_of(cfg: &[i32], state: &Lent, event: EventNumber) -> u16
    requires { OneOf cfg.now (as_found state.now) event.0 }
    ensures { result
        ≡ raised_counter cfg.now
        (as_found state.now) event.0 }
{
    let counter = counter::counter_of(cfg, state.records, state.debounce, event);
    page_parts::raised(counter as i8)
}

// "its occurrence count": 0 where it has no entry.
fn count_of(cfg: &[i32], memory: &[u8], event: EventNumber) -> u16
    requires { EntriesFit (entry_frames cfg.now) memory.now }
    ensures { result
        ≡ count_in (entry_for event.0 (entries_of (entry_frames cfg.now) memory.now)) }
{
    let payload_bytes = memory::entry_frames(cfg);
    match memory::place_of(memory, payload_bytes, event) {
        Some(place) => u16::from(memory::count_at(memory, payload_bytes, place)),
        None => 0,
    }
}

// All of them.
pub fn signal_of(cfg: &[i32], state: &Lent, event: EventNumber) -> Signal
    requires { OneOf cfg.now (as_found state.now) event.0 }
    ensures { result
        ≡ signal_of cfg.now
        (as_found state.now) event.0 }
{
    let paint = untested::paint_of(cfg, state.records, state.board, event);
    let code = code_of(cfg, event);
    let cycle = cycle_of(cfg, event);
    let runs = judgement::runs(state.board, cycle as usize);
    let raised = raised_of(cfg, state, event);
    let count = count_of(cfg, state.memory, event);
    let status = status::status_of(state.records, event).0;
    Signal {
        paint,
        code,
        cycle,
        runs,
        raised,
        count,
        status: status as u16,
    }
}

// ---- its rows

// The three lists of the page.
#[derive(Clone, Copy)]
pub enum Listing {
    Untested,
    Failed,
    All,
}

// "the untested ones by name": nothing of one that is tested.
fn put_untested(page: &mut Page, event: u16, name: &[u8], x: Signal)
    requires { (length name.now ≤ 120) × (HasRoom 920 page.old) }
    ensures { Adds (listed Untested event name.now x) 920 page.old page.new }
{
    if paint_number(x.paint) == 0 {
        page_parts::untested_row(page, event, name, x);
    }
}

// "then the failed ones"
fn put_failed(page: &mut Page, event: u16, name: &[u8], x: Signal)
    requires { (length name.now ≤ 120) × (HasRoom 920 page.old) }
    ensures { Adds (listed Failed event name.now x) 920 page.old page.new }
{
    if paint_number(x.paint) == 1 {
        page_parts::failed_row(page, event, name, x);
    }
}

// What a list has of a signal.
fn put_listed(page: &mut Page, listing: Listing, event: u16, name: &[u8], x: Signal)
    requires { (length name.now ≤ 120) × (HasRoom 1300 page.old) }
    ensures { Adds (listed listing event name.now x) 1300 page.old page.new }
{
    match listing {
        Listing::Untested => put_untested(page, event, name, x),
        Listing::Failed => put_failed(page, event, name, x),
        Listing::All => page_parts::signal_row(page, event, name, x),
    }
}

// What a list has of the signal of this event.
pub fn part(
    page: &mut Page,
    listing: Listing,
    cfg: &[i32],
    state: &Lent,
    names: &[u8],
    event: EventNumber,
)
    requires { (OneOf cfg.now (as_found state.now) event.0)
        × (length names.now ≤ most_names) × (HasRoom 1300 page.old) }
    ensures { Adds
        (part_of listing cfg.now names.now
        (as_found state.now) event.0)
        1300 page.old page.new }
{
    let x = signal_of(cfg, state, event);
    let name = page_names::name_of(names, x.code);
    let e = event.0;
    put_listed(page, listing, e as u16, name, x);
}
