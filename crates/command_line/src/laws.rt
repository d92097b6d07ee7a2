//! Laws of the command line.
ghost use Rattle.std.specs.Prelude.{◌≡◌};
ghost use Rattle.command_line.specs.CommandLine.{version_line};
ghost use Rattle.command_line.specs.declared.cli.TheConstants.{VERSION};

/// The output of `--version` is one line.
pub fn version()
    ensures { VERSION.now ≡ version_line }
{}
