// Document 02, W5: which of the conditions that an event needs are missing.
#![tactic(auto)]

ghost use Rattle.std.specs.Prelude.{◌≡◌, ◌<◌};
ghost use Rattle.manual.specs.Configuration.{most_events, needed_of};
ghost use Rattle.manual.specs.Conditions.{missing_of, lowest_missing_of, enabled};
ghost use Rattle.conditions.specs.Sets.{without};

use manual::{EventNumber, StillMissing};

// The bits of needed without present.
fn without(needed: u32, present: u32) -> u32
    ensures { result ≡ without needed present }
{
    needed & !present
}

// Whether the event's needed conditions are all present.
pub fn enabled(cfg: &[i32], event: EventNumber, present: u32) -> bool
    requires { event.0 < most_events }
    ensures { result ≡ enabled cfg.now present event.0 }
{
    without(config::needed_of(cfg, event), present) == 0
}

// "how many of the conditions it needs are still missing, and the lowest missing number, or 32 when none is"
pub fn still_missing(cfg: &[i32], event: EventNumber, present: u32) -> StillMissing
    requires { event.0 < most_events }
    ensures { (result.count ≡ missing_of (needed_of cfg.now event.0) present) ×
        (result.lowest ≡ lowest_missing_of (needed_of cfg.now event.0) present) }
{
    let absent = without(config::needed_of(cfg, event), present);
    StillMissing {
        count: absent.count_ones(),
        lowest: absent.trailing_zeros(),
    }
}
