//! Why a call over files of saved runs writes nothing.
ghost use Rattle.std.specs.Prelude.{◌≡◌};
ghost use Rattle.sym_top.specs.RunFileRefusals.{reduce_refusal as refusal_of_reduce};

use sym_command::Place;
use sym_message::Refusal;
use sym_reduce::ReduceErr;

/// Why a call is refused whose files of saved runs have no totals, or can't be joined.
pub fn reduce_refusal(error: ReduceErr) -> Refusal
    ensures { result ≡ refusal_of_reduce error }
{
    match error {
        ReduceErr::Read { file } => Refusal::Read(Place::File(file)),
        ReduceErr::TooLarge { file } => Refusal::TooLarge(Place::File(file)),
        ReduceErr::OtherScript { file } => Refusal::OtherScript { file },
        ReduceErr::Malformed { file } => Refusal::Malformed { file },
        ReduceErr::Apart { file } => Refusal::Apart { file },
        ReduceErr::Gap { file, group } => Refusal::Gap { file, group },
        ReduceErr::NoMemory => Refusal::NoMemory,
    }
}
