//! Texts that are written, and the status of a report.
ghost use Rattle.std.specs.Prelude.{◌≡◌, if◌then◌else◌};

use crate::status::Status;

/// A text, and the status with which it is written.
#[derive(Drop)]
pub struct Report {
    pub text: Vec<u8>,
    pub status: Status,
}

/// A report is Faulted where a row is.
pub fn report_status(faulty: bool) -> Status
    ensures { result ≡ (if faulty then Status.Faulted else Status.Done) }
{
    if faulty {
        Status::Faulted
    } else {
        Status::Done
    }
}
