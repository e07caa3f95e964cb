// Document 02, W7: the five counts, and what a call adds to them.
#![tactic(auto)]

ghost use Rattle.std.specs.Prelude.{◌≡◌, false, List, [], ◌∷◌, ℕ, ◌+◌, length, ltb};
ghost use Rattle.std.specs.List.{list_any, zip};
ghost use Rattle.manual.specs.Memory.{Entry};
ghost use Rattle.manual.specs.Counts.{of_store, rise_of, numbers, raised, most_count, past};
ghost use Rattle.manual.specs.Counts.{counts_fit, no_counts, present_counts};
ghost use Rattle.counts.specs.Near.{AreFive, some_near, MayRise};

use manual::{Rise, StoreAnswer};

// The greatest count that is not near its limit, "4,294,967,295": each of the five rises at most once an event.
const FAR: u32 = u32::MAX - manual::MOST_EVENTS as u32;

// No happening.
const NOTHING: Rise = Rise {
    admitted: 0,
    pushed_out: 0,
    aged: 0,
    cleared: 0,
    not_stored: 0,
};

pub fn no_rise() -> Rise
    ensures { numbers result ≡ no_counts }
{
    NOTHING
}

// So many entries aged, at a stop.
pub fn aged_rise(gone: u32) -> Rise
    ensures { numbers result ≡ 0 ∷ 0 ∷ gone ∷ 0 ∷ 0 ∷ [] }
{
    Rise {
        aged: gone,
        ..NOTHING
    }
}

// So many entries cleared, by a clear.
pub fn cleared_rise(gone: u32) -> Rise
    ensures { numbers result ≡ 0 ∷ 0 ∷ 0 ∷ gone ∷ 0 ∷ [] }
{
    Rise {
        cleared: gone,
        ..NOTHING
    }
}

// What memory did at an event's part of a call, as a rise: a renewal admits nothing.
pub fn rise_of(did: StoreAnswer) -> Rise
    ensures { (e : ℕ) → numbers result ≡ rise_of (of_store e did) }
{
    match did {
        StoreAnswer::Untold => NOTHING,
        StoreAnswer::Renewed => NOTHING,
        StoreAnswer::Added => Rise {
            admitted: 1,
            ..NOTHING
        },
        StoreAnswer::Displaced(_) => Rise {
            admitted: 1,
            pushed_out: 1,
            ..NOTHING
        },
        StoreAnswer::NotStored => Rise {
            not_stored: 1,
            ..NOTHING
        },
    }
}

// The five with a rise.
fn sum(rise: Rise, five: Rise) -> Rise
    requires { past (raised (numbers rise) (numbers five)) ≡ false }
    ensures { numbers result ≡ raised (numbers rise) (numbers five) }
{
    Rise {
        admitted: rise.admitted + five.admitted,
        pushed_out: rise.pushed_out + five.pushed_out,
        aged: rise.aged + five.aged,
        cleared: rise.cleared + five.cleared,
        not_stored: rise.not_stored + five.not_stored,
    }
}

// The rise of the events before, with that of one more.
pub fn with_store(rise: Rise, did: StoreAnswer) -> Rise
    requires { MayRise rise }
    ensures { (e : ℕ) → numbers result ≡ raised (rise_of (of_store e did)) (numbers rise) }
{
    sum(rise_of(did), rise)
}

// "A slice of another length is 3."
pub fn fit(counts: &[u32]) -> bool
    ensures { result ≡ counts_fit counts.now }
{
    counts.len() == manual::COUNTS
}

// The five numbers of the slice.
fn five_of(counts: &[u32]) -> Rise
    requires { AreFive counts.now }
    ensures { numbers result ≡ counts.now }
{
    Rise {
        admitted: counts[0],
        pushed_out: counts[1],
        aged: counts[2],
        cleared: counts[3],
        not_stored: counts[4],
    }
}

// The five numbers in their order.
fn in_order(five: Rise) -> [u32; manual::COUNTS]
    ensures { result ≡ numbers five }
{
    [
        five.admitted,
        five.pushed_out,
        five.aged,
        five.cleared,
        five.not_stored,
    ]
}

// Five numbers in place of the counts.
fn set_all(counts: &mut [u32], five: Rise)
    requires { AreFive counts.old }
    ensures { counts.new ≡ numbers five }
{
    counts.copy_from_slice(&in_order(five));
}

// Whether some count lies less than 512 below its limit. Where none does, no call is refused for a count.
pub fn some_near(counts: &[u32]) -> bool
    requires { AreFive counts.now }
    ensures { result ≡ some_near counts.now }
{
    counts.iter().any(|count| FAR < *count)
}

// Whether some count and its rise are more than 32 bits hold.
fn carries_past(rise: &[u32], counts: &[u32]) -> bool
    ensures { result ≡ list_any (λ pair. ltb most_count (pair.0 + pair.1)) (zip rise.now counts.now) }
{
    rise.iter()
        .zip(counts)
        .any(|(more, count)| more.checked_add(*count).is_none())
}

// "whose whole rise would carry any count past 4,294,967,295"
pub fn some_past(counts: &[u32], rise: Rise) -> bool
    requires { AreFive counts.now }
    ensures { result ≡ past (raised (numbers rise) counts.now) }
{
    carries_past(&in_order(rise), counts)
}

// The counts rise.
pub fn raise(counts: &mut [u32], rise: Rise)
    requires { AreFive counts.old × (past (raised (numbers rise) counts.old) ≡ false) }
    ensures { counts.new ≡ raised (numbers rise) counts.old }
{
    let five = five_of(counts);
    set_all(counts, sum(rise, five));
}

// "A fresh state zeroes all five."
pub fn reset(counts: &mut [u32])
    requires { AreFive counts.old }
    ensures { counts.new ≡ no_counts }
{
    set_all(counts, no_rise());
}

// "A restore sets admitted to the entries present and the rest to 0", of so many entries.
pub fn set_present(counts: &mut [u32], entries: u32)
    requires { AreFive counts.old }
    ensures { (xs : List Entry) → length xs ≡ entries → counts.new ≡ present_counts xs }
{
    set_all(
        counts,
        Rise {
            admitted: entries,
            ..NOTHING
        },
    );
}
