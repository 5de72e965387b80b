//! What a command comes to before anything is written.
ghost use Rattle.std.specs.Prelude.{◌≡◌, None};

use sym_check::Checked;
use sym_message::{Refusal, Status};

/// A text: as it stands, or as a form has gathered it.
#[derive(Drop)]
pub enum Text<F> {
    Plain(Vec<u8>),
    Gathered(F),
}

/// A text that is ready to be written, and the status of a call that wrote it.
#[derive(Drop)]
pub struct Output<F> {
    pub status: Status,
    pub text: Text<F>,
}

/// Why a call stops before it writes, with the script, where one was accepted.
#[derive(Drop)]
pub struct Stop {
    pub why: Refusal,
    pub checked: Option<Checked>,
}

/// A call whose arguments are those of no command, or weren't read since memory ran out.
pub fn no_command(why: Refusal) -> Stop
    ensures { result ≡ record { why = why; checked = None } }
{
    Stop { why, checked: None }
}
