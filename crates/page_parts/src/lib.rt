// The rows of the page that tell of one signal, each put into a page, from values that are read off the state.
#![tactic(auto)]

ghost use Rattle.std.specs.Prelude.{◌≡◌, ◌++◌, ◌+◌, ◌≤◌, length, pos, ◌+ℤ◌};
ghost use Rattle.manual.specs.Words.{nat_of};
ghost use Rattle.page_text.specs.Text.{text};
ghost use Rattle.page_text.specs.Page.{HasRoom, Adds};
ghost use Rattle.page_text.specs.Escape.{escaped};
ghost use Rattle.page_text.specs.Numbers.{decimal};
ghost use Rattle.page_parts.specs.Signals.{paint_cell, shown_name, signal, why, stored, lowered, near};
ghost use Rattle.page_parts.specs.Signals.{low_names, high_names, bits, untested_row, failed_row, told, signal_row};

use manual::Paint;
use page_text::Page;

// What the page tells of a signal beside its name.
#[derive(Clone, Copy)]
pub struct Signal {
    pub paint: Paint,
    pub code: u32,
    pub cycle: u16,
    pub runs: bool,
    pub raised: u16,
    pub count: u16,
    pub status: u16,
}

// ---- which signal it is

// "paint as colour and word"
fn put_paint(page: &mut Page, paint: Paint)
    requires { HasRoom 64 page.old }
    ensures { Adds (paint_cell paint) 64 page.old page.new }
{
    match paint {
        Paint::Grey => page.put(b"<tr><td><span class=\"paint grey\">grey</span></td>"),
        Paint::Red => page.put(b"<tr><td><span class=\"paint red\">red</span></td>"),
        Paint::Live => page.put(b"<tr><td><span class=\"paint live\">live</span></td>"),
    }
}

fn put_event(page: &mut Page, event: u16)
    requires { HasRoom 11 page.old }
    ensures { Adds (text "event " ++ decimal event) 11 page.old page.new }
{
    page.put(b"event ");
    page.put_decimal(event);
}

fn put_bdi(page: &mut Page, name: &[u8])
    requires { (length name.now ≤ 120) × (HasRoom 740 page.old) }
    ensures { Adds (text "<bdi>" ++ escaped name.now ++ text "</bdi>") 740 page.old page.new }
{
    page.put(b"<bdi>");
    page.put_escaped(name);
    page.put(b"</bdi>");
}

// "events are shown by name beside the code; without one by code"
fn put_name(page: &mut Page, event: u16, name: &[u8])
    requires { (length name.now ≤ 120) × (HasRoom 740 page.old) }
    ensures { Adds (shown_name event name.now) 740 page.old page.new }
{
    if name.is_empty() {
        put_event(page, event)
    } else {
        put_bdi(page, name)
    }
}

fn put_signal(page: &mut Page, event: u16, name: &[u8], x: Signal)
    requires { (length name.now ≤ 120) × (HasRoom 860 page.old) }
    ensures { Adds (signal x.paint event name.now x.code) 860 page.old page.new }
{
    put_paint(page, x.paint);
    page.put(b"<th scope=\"row\">");
    put_name(page, event, name);
    page.put(b"</th><td class=\"code\">");
    page.put_code(x.code);
    page.put(b"</td>");
}

// ---- what is told of it

fn put_why(page: &mut Page, runs: bool)
    requires { HasRoom 48 page.old }
    ensures { Adds (why runs) 48 page.old page.new }
{
    if runs {
        page.put(b"<td>not tested since its cycle started</td>")
    } else {
        page.put(b"<td>its cycle is stopped</td>")
    }
}

fn put_times(page: &mut Page, count: u16)
    requires { HasRoom 32 page.old }
    ensures { Adds (text "<td>stored, " ++ decimal count ++ text " times</td>") 32 page.old page.new }
{
    page.put(b"<td>stored, ");
    page.put_decimal(count);
    page.put(b" times</td>");
}

// "whether it has a memory entry, its occurrence count"
fn put_stored(page: &mut Page, count: u16)
    requires { HasRoom 32 page.old }
    ensures { Adds (stored count) 32 page.old page.new }
{
    match count {
        0 => page.put(b"<td>not stored</td>"),
        1 => page.put(b"<td>stored, once</td>"),
        _ => put_times(page, count),
    }
}

// The counter raised by 128, which is no negative number.
pub fn raised(counter: i8) -> u16
    ensures { result ≡ nat_of (counter +ℤ pos 128) }
{
    (counter as i16 + 128) as u16
}

fn put_minus(page: &mut Page, n: u16)
    requires { HasRoom 12 page.old }
    ensures { Adds (text "&minus;" ++ decimal n) 12 page.old page.new }
{
    page.put(b"&minus;");
    page.put_decimal(n);
}

fn put_lowered(page: &mut Page, raised: u16)
    requires { HasRoom 12 page.old }
    ensures { Adds (lowered raised) 12 page.old page.new }
{
    if raised < 128 {
        put_minus(page, 128 - raised)
    } else {
        page.put_decimal(raised - 128)
    }
}

// "fault detection counter as a bar with its number"
fn put_near(page: &mut Page, raised: u16)
    requires { HasRoom 110 page.old }
    ensures { Adds (near raised) 110 page.old page.new }
{
    page.put(b"<td class=\"near\"><progress aria-hidden=\"true\" max=\"255\" value=\"");
    page.put_decimal(raised);
    page.put(b"\"></progress> ");
    put_lowered(page, raised);
    page.put(b"</td>");
}

fn put_low_names(page: &mut Page, status: u16)
    requires { HasRoom 60 page.old }
    ensures { Adds (low_names status) 60 page.old page.new }
{
    page.put_if(status / 1 % 2 == 1, b" testFailed");
    page.put_if(status / 2 % 2 == 1, b" testFailedThisOperationCycle");
    page.put_if(status / 4 % 2 == 1, b" pending");
    page.put_if(status / 8 % 2 == 1, b" confirmed");
}

fn put_high_names(page: &mut Page, status: u16)
    requires { HasRoom 120 page.old }
    ensures { Adds (high_names status) 120 page.old page.new }
{
    page.put_if(status / 16 % 2 == 1, b" testNotCompletedSinceLastClear");
    page.put_if(status / 32 % 2 == 1, b" testFailedSinceLastClear");
    page.put_if(status / 64 % 2 == 1, b" testNotCompletedThisOperationCycle");
    page.put_if(status / 128 % 2 == 1, b" warningIndicatorRequested");
}

// "the set bits by name"
fn put_bits(page: &mut Page, status: u16)
    requires { HasRoom 230 page.old }
    ensures { Adds (bits status) 230 page.old page.new }
{
    page.put(b"<td class=\"bits\">");
    page.put_hex_byte(status as u32);
    page.put_if(status == 0, b" no bit is set");
    put_low_names(page, status);
    put_high_names(page, status);
    page.put(b"</td>");
}

// ---- its rows

// A row of the list of the untested.
pub fn untested_row(page: &mut Page, event: u16, name: &[u8], x: Signal)
    requires { (length name.now ≤ 120) × (HasRoom 920 page.old) }
    ensures { Adds (untested_row x.paint event name.now x.code x.runs) 920 page.old page.new }
{
    put_signal(page, event, name, x);
    put_why(page, x.runs);
    page.put(b"</tr>\n");
}

// A row of the list of the failed.
pub fn failed_row(page: &mut Page, event: u16, name: &[u8], x: Signal)
    requires { (length name.now ≤ 120) × (HasRoom 920 page.old) }
    ensures { Adds (failed_row x.paint event name.now x.code x.count) 920 page.old page.new }
{
    put_signal(page, event, name, x);
    put_stored(page, x.count);
    page.put(b"</tr>\n");
}

fn put_told(page: &mut Page, x: Signal)
    requires { HasRoom 420 page.old }
    ensures { Adds (told x.cycle x.raised x.count x.status) 420 page.old page.new }
{
    page.put(b"<td class=\"n\">");
    page.put_decimal(x.cycle);
    page.put(b"</td>");
    put_near(page, x.raised);
    put_stored(page, x.count);
    put_bits(page, x.status);
}

// A row of the table of all signals.
pub fn signal_row(page: &mut Page, event: u16, name: &[u8], x: Signal)
    requires { (length name.now ≤ 120) × (HasRoom 1300 page.old) }
    ensures { Adds (signal_row x.paint event name.now x.code x.cycle x.raised x.count x.status) 1300 page.old page.new }
{
    put_signal(page, event, name, x);
    put_told(page, x);
    page.put(b"</tr>\n");
}
