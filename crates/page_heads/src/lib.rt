// The parts of the page that tell of the whole machine, each put into a page.
#![tactic(auto)]

ghost use mathlib.Core.List.{flat_map};
ghost use Rattle.std.specs.Prelude.{◌≡◌, ◌+◌, ◌*◌, ◌≤◌, length};
ghost use Rattle.page_text.specs.Page.{HasRoom, Adds};
ghost use Rattle.page_heads.specs.Heads.{summary, title, headline, tiles, number, cycle_head, cycle_row, memory};
ghost use Rattle.page_heads.specs.Heads.{overflowed, calls, unreadable, unreadable_if, answered_with, last_answer};
ghost use Rattle.page_heads.specs.Heads.{bad_line, bad_name, unused_numbered, unused, names_unused};

use page_text::Page;

// How many signals are untested, failed, live.
#[derive(Clone, Copy)]
pub struct Totals {
    pub untested: u16,
    pub failed: u16,
    pub live: u16,
}

// Why no name is shown: the names file cannot be read, or is too long.
#[derive(Clone, Copy)]
pub enum Unused {
    Unreadable,
    TooLong,
}

// The same by its number: 0 for no reason, 1 for a file that cannot be read, any other for one that is too long.
pub fn unused_numbered(why: u16) -> Option<Unused>
    ensures { result ≡ unused_numbered why }
{
    match why {
        0 => None,
        1 => Some(Unused::Unreadable),
        _ => Some(Unused::TooLong),
    }
}

fn put_summary(page: &mut Page, x: Totals)
    requires { HasRoom 42 page.old }
    ensures { Adds (summary x.untested x.failed x.live) 42 page.old page.new }
{
    page.put_decimal(x.untested);
    page.put(b" untested, ");
    page.put_decimal(x.failed);
    page.put(b" failed, ");
    page.put_decimal(x.live);
    page.put(b" live");
}

// The title of the page.
pub fn title(page: &mut Page, x: Totals)
    requires { HasRoom 64 page.old }
    ensures { Adds (title x.untested x.failed x.live) 64 page.old page.new }
{
    page.put(b"<title>");
    put_summary(page, x);
    page.put(b"</title>\n");
}

// Its first line.
pub fn headline(page: &mut Page, signals: u16, x: Totals)
    requires { HasRoom 64 page.old }
    ensures { Adds (headline signals x.untested x.failed x.live) 64 page.old page.new }
{
    page.put(b"<h1>");
    put_summary(page, x);
    page.put(b", of ");
    page.put_decimal(signals);
    page.put(b"</h1>\n");
}

// The three numbers in their colours.
pub fn tiles(page: &mut Page, x: Totals)
    requires { HasRoom 200 page.old }
    ensures { Adds (tiles x.untested x.failed x.live) 200 page.old page.new }
{
    page.put(b"<div class=\"tiles\">\n<div class=\"tile grey\"><b>");
    page.put_decimal(x.untested);
    page.put(b"</b> untested</div>\n<div class=\"tile red\"><b>");
    page.put_decimal(x.failed);
    page.put(b"</b> failed</div>\n<div class=\"tile live\"><b>");
    page.put_decimal(x.live);
    page.put(b"</b> live</div>\n</div>\n");
}

fn put_number(page: &mut Page, n: u16)
    requires { HasRoom 24 page.old }
    ensures { Adds (number n) 24 page.old page.new }
{
    page.put(b"<td class=\"n\">");
    page.put_decimal(n);
    page.put(b"</td>");
}

fn put_numbers(page: &mut Page, counts: &[u16])
    requires { HasRoom (24 * length counts.now) page.old }
    ensures { Adds (flat_map number counts.now) (24 * length counts.now) page.old page.new }
{
    for &n in counts {
        put_number(page, n);
    }
}

// "the cycles that run"
fn put_cycle(page: &mut Page, cycle: u16, runs: bool)
    requires { HasRoom 60 page.old }
    ensures { Adds (cycle_head cycle runs) 60 page.old page.new }
{
    page.put(b"<tr><th scope=\"row\">");
    page.put_decimal(cycle);
    page.put_if(runs, b" runs");
    page.put_if(!runs, b" is stopped");
    page.put(b"</th>");
}

// A row of "the table of four cycles by eight bits".
pub fn cycle_row(page: &mut Page, cycle: u16, runs: bool, counts: &[u16])
    requires { (length counts.now ≤ 8) × (HasRoom 260 page.old) }
    ensures { Adds (cycle_row cycle runs counts.now) 260 page.old page.new }
{
    put_cycle(page, cycle, runs);
    put_numbers(page, counts);
    page.put(b"</tr>\n");
}

fn put_overflow(page: &mut Page, overflow: bool)
    requires { HasRoom 90 page.old }
    ensures { Adds (overflowed overflow) 90 page.old page.new }
{
    if overflow {
        page.put(b"<strong>Overflow: a failure found no place.</strong></p>\n")
    } else {
        page.put(
            b"No overflow: no failure was left without a place since all was last cleared.</p>\n",
        )
    }
}

// The places of memory that are taken, and overflow.
pub fn memory(page: &mut Page, taken: u16, places: u16, overflow: bool)
    requires { HasRoom 140 page.old }
    ensures { Adds (memory taken places overflow) 140 page.old page.new }
{
    page.put(b"<p>");
    page.put_decimal(taken);
    page.put(b" of ");
    page.put_decimal(places);
    page.put(b" places are taken. ");
    put_overflow(page, overflow);
}

// How many calls the log has, and how many were refused.
pub fn calls(page: &mut Page, made: u16, refused: u16)
    requires { HasRoom 64 page.old }
    ensures { Adds (calls made refused) 64 page.old page.new }
{
    page.put(b"<p>Calls in the log: ");
    page.put_decimal(made);
    page.put(b", refused: ");
    page.put_decimal(refused);
    page.put(b".</p>\n");
}

// What is said of a log that cannot be read to its end.
pub fn unreadable(page: &mut Page, behind: u16)
    requires { HasRoom 160 page.old }
    ensures { Adds (unreadable behind) 160 page.old page.new }
{
    page.put(b"<p class=\"message\">Bad input: behind byte ");
    page.put_decimal(behind);
    page.put(
        b" of the log there is no call that can be read. This page shows the state up to there.</p>\n",
    );
}

// It is said where the log is bad.
pub fn unreadable_if(page: &mut Page, behind: Option<u16>)
    requires { HasRoom 160 page.old }
    ensures { Adds (unreadable_if behind) 160 page.old page.new }
{
    if let Some(behind) = behind {
        unreadable(page, behind);
    }
}

fn put_answer(page: &mut Page, answer: u16)
    requires { HasRoom 80 page.old }
    ensures { Adds (answered_with answer) 80 page.old page.new }
{
    page.put(b"<p>The last call was answered with ");
    page.put_decimal(answer);
    page.put_if(answer == 0, b", done");
    page.put_if(answer != 0, b", refused");
    page.put(b".</p>\n");
}

// What the last of so many calls was answered with.
pub fn last_answer(page: &mut Page, made: u16, answer: u16)
    requires { HasRoom 80 page.old }
    ensures { Adds (last_answer made answer) 80 page.old page.new }
{
    if made == 0 {
        page.put(b"<p>No call was made.</p>\n")
    } else {
        put_answer(page, answer)
    }
}

fn put_bad_line(page: &mut Page, line: u16)
    requires { HasRoom 120 page.old }
    ensures { Adds (bad_line line) 120 page.old page.new }
{
    page.put(b"<p class=\"message\">Line ");
    page.put_decimal(line);
    page.put(
        b" of the names file is not a trouble code, a space and a name. It is passed over.</p>\n",
    );
}

// "A bad line of that file is a clear message with its number"
pub fn bad_name(page: &mut Page, line: Option<u16>)
    requires { HasRoom 120 page.old }
    ensures { Adds (bad_name line) 120 page.old page.new }
{
    if let Some(line) = line {
        put_bad_line(page, line);
    }
}

fn put_unused(page: &mut Page, why: Unused)
    requires { HasRoom 120 page.old }
    ensures { Adds (unused why) 120 page.old page.new }
{
    match why {
        Unused::Unreadable => page.put(
            b"<p class=\"message\">The names file cannot be read: signals have no names here.</p>\n",
        ),
        Unused::TooLong => page.put(
            b"<p class=\"message\">The names file is longer than 65,535 bytes: signals have no names here.</p>\n",
        ),
    }
}

// Why no name is shown.
pub fn names_unused(page: &mut Page, why: Option<Unused>)
    requires { HasRoom 120 page.old }
    ensures { Adds (names_unused why) 120 page.old page.new }
{
    if let Some(why) = why {
        put_unused(page, why);
    }
}
