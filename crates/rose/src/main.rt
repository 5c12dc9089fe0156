//! The program `rose`: hands its words and the real world to the shell, and says how it ended.
#![tactic(auto)]

ghost use Rattle.std.specs.Prelude.{◌≡◌};
ghost use Rattle.std.specs.Process.{exit_status};
ghost use Rattle.rose_shell.specs.Status.{number_of};

use process_run::{exit_of, say, status_without_words};
use process_world::{FileWorld, words_of};
use rose_shell::{Status, run};
use std::process::ExitCode;

fn main(rt: HostRuntime) -> ExitCode {
    let status = match words_of(&rt) {
        Ok(words) => {
            let copied: Result<HostRuntime, _> = rt.clone();
            match copied {
                Ok(copy) => run(&rt, rt.alloc(), words.as_slice(), &mut FileWorld::new(copy)),
                Err(_) => Status::NoMemory,
            }
        }
        Err(why) => status_without_words(why),
    };
    end_with(&rt, status)
}

// Says why the program doesn't end well, and ends it with the number of the status.
fn end_with<R: Eprint>(rt: &R, status: Status) -> ExitCode
    ensures number { exit_status result ≡ number_of status }
{
    say(rt, status);
    exit_of(status)
}
