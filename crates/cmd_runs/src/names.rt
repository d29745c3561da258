// The names of the files of a run.
ghost use Rattle.std.specs.Prelude.{◌≡◌};
ghost use Rattle.cmd_arguments.specs.ReadCommands.{run_options_read};
ghost use Rattle.cmd_common.specs.Names.{names_read};
ghost use Rattle.cmd_runs.specs.Names.{run_names};

use cmd_arguments::RunOptions;
use cmd_common::InputNames;

/// That of what runs, and those of the options.
pub fn run_names<'a>(first: &'a str, run: &RunOptions<'a>) -> InputNames<'a>
    ensures { names_read result ≡ run_names first.now (run_options_read run.now) }
{
    InputNames {
        first,
        text: "",
        console: run.input.unwrap_or(""),
        disk: run.disk.unwrap_or(""),
        ports: run.ports.unwrap_or(""),
    }
}
