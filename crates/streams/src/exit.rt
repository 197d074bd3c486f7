//! The status of a run as a number.
ghost use Rattle.std.specs.Prelude.{◌≡◌};
ghost use Rattle.streams.specs.Exit.{exit_number};

use replay_run::Status;

/// The number with which the program ends: 0 where all went well, and one of 1 to 6 for each other status.
pub fn exit_code(status: Status) -> u8
    ensures { result ≡ exit_number status }
{
    match status {
        Status::Done => 0,
        Status::Refused => 1,
        Status::Usage => 2,
        Status::ReadFault => 3,
        Status::WriteFault => 4,
        Status::Memory => 5,
        Status::TooLong => 6,
    }
}
