//! How a run ends whose words aren't known, and the number that a run ends with.
ghost use Rattle.std.specs.Prelude.{◌≡◌};
ghost use Rattle.std.specs.Process.{exit_status};
ghost use Rattle.rose_shell.specs.Status.{number_of};

use process_world::WordsError;
use rose_shell::Status;
use std::process::ExitCode;

/// How a run ends whose words aren't known. Words that aren't text are none that it knows.
pub fn status_without_words(why: WordsError) -> Status
    ensures not_text { why ≡ WordsError.NotText → result ≡ Status.Usage }
    ensures no_memory { why ≡ WordsError.NoMemory → result ≡ Status.NoMemory }
{
    match why {
        WordsError::NotText => Status::Usage,
        WordsError::NoMemory => Status::NoMemory,
    }
}

/// What the process ends with.
pub fn exit_of(status: Status) -> ExitCode
    ensures number { exit_status result ≡ number_of status }
{
    ExitCode::from(status.number())
}
