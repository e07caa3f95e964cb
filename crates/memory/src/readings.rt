// What memory asks of the records: one function each.
ghost use Rattle.std.specs.Prelude.{◌≡◌, not, ◌*◌, get_or};
ghost use Rattle.history.specs.StatusByte.{status_of, test_failed, test_failed_since_last_clear};

use manual::EventNumber;
use status::Status;

// Whether the event has bit 0 clear.
pub fn is_quiet(records: &[u8], event: EventNumber) -> bool
    ensures { result ≡ not (status_of (get_or records.now (4 * event.0) 0) test_failed) }
{
    !status::status_of(records, event).contains(Status::TEST_FAILED)
}

// Whether the event has bit 5 set.
pub fn has_failed(records: &[u8], event: EventNumber) -> bool
    ensures { result ≡ status_of (get_or records.now (4 * event.0) 0) test_failed_since_last_clear }
{
    status::status_of(records, event).contains(Status::TEST_FAILED_SINCE_LAST_CLEAR)
}
