ghost use Rattle.std.specs.Prelude.{◌≡◌, Some};
ghost use Rattle.cedr_guard.specs.Judging.{guarantee_fault, retraction_fault, revision_fault};

use cedr_base::{Row, Time};
use cedr_text::LineFault;

/// The fault of a sync that is below the guarantee.
pub(crate) fn guarantee_fault(sync: Time, mark: Time) -> Option<LineFault>
    ensures { result ≡ guarantee_fault sync mark }
{
    if sync < mark {
        Some(LineFault::BeforeGuarantee { sync, mark })
    } else {
        None
    }
}

/// The fault of a new end for an event.
pub(crate) fn retraction_fault(event: &Row, end: Time, mark: Time) -> Option<LineFault>
    ensures { result ≡ retraction_fault (Some event.now) end mark }
{
    if end < event.begin || event.end <= end {
        return Some(LineFault::BadEnd {
            begin: event.begin,
            end: event.end,
        });
    }
    guarantee_fault(end, mark)
}

/// The fault of a revision with this begin: its sync is the lesser begin, or its own where the event is withdrawn.
pub(crate) fn revision_fault(event: &Row, begin: Time, mark: Time) -> Option<LineFault>
    ensures { result ≡ revision_fault (Some event.now) begin mark }
{
    let lives = event.begin < event.end;
    let sync = if lives { event.begin.min(begin) } else { begin };
    guarantee_fault(sync, mark)
}
