//! How the program is called.

use clap::{Arg, Command};
use std::alloc::{AllocError, Global};

/// The words of each command, a line for each.
const FORMS: &str = "ctrel byte <BINARY> <ENTRY> <BOUND>
       ctrel check <BINARY> <POLICY> [OPTIONS]
       ctrel replay <BINARY> <POLICY> <PAIR>
       ctrel trace <BINARY> <ENTRY> <BOUND>
       ctrel list <BINARY>
       ctrel gen <NUMBER> <SIZE>";

/// How the program is called: its commands, what their words stand for, and the options of `check`.
pub fn usage_text(alloc: Global) -> Result<String, AllocError> {
    let program = Command::new(alloc, "ctrel")
        .about(
            "Tells whether a compiled cryptographic routine keeps its secrets out of its branches and memory addresses",
        )
        .override_usage(FORMS)
        .disable_help_flag(true)
        .disable_help_subcommand(true);
    let program = with_commands(alloc, program)?;
    let program = with_words(alloc, program)?;
    let mut program = with_options(alloc, program)?;
    program.render_help()
}

/// The program with its commands.
fn with_commands<'a>(alloc: Global, program: Command<'a>) -> Result<Command<'a>, AllocError> {
    program
        .subcommand(Command::new(alloc, "byte").about(
            "Check a routine of one secret byte by running all pairs of its values",
        ))?
        .subcommand(Command::new(alloc, "check").about("Check a routine under a policy"))?
        .subcommand(Command::new(alloc, "replay").about(
            "Run both starts of a pair and show where they first differ",
        ))?
        .subcommand(Command::new(alloc, "trace").about(
            "Show each step of a routine whose one input byte is 0",
        ))?
        .subcommand(Command::new(alloc, "list").about("Show every word that can be executed"))?
        .subcommand(Command::new(alloc, "gen").about("Check a generated routine"))
}

/// The program with the words of its commands.
fn with_words<'a>(alloc: Global, program: Command<'a>) -> Result<Command<'a>, AllocError> {
    program
        .arg(word(alloc, "BINARY", "A static RV32IM ELF file"))?
        .arg(word(
            alloc,
            "POLICY",
            "A TOML file that says where the routine begins and stops and which bytes are secret",
        ))?
        .arg(word(
            alloc,
            "PAIR",
            "A file with a pair: its shared, left and right bytes",
        ))?
        .arg(word(
            alloc,
            "ENTRY",
            "Where the routine begins: an address (65620 or 0x10054) or the name of a symbol",
        ))?
        .arg(word(
            alloc,
            "BOUND",
            "The greatest number of steps of a run, 1 to 100000",
        ))?
        .arg(word(
            alloc,
            "NUMBER",
            "What the routine is generated from, 0 to 4294967295",
        ))?
        .arg(word(
            alloc,
            "SIZE",
            "How many blocks of code the routine has, 1 to 20000",
        ))
}

/// The program with the options of `check`.
fn with_options<'a>(alloc: Global, program: Command<'a>) -> Result<Command<'a>, AllocError> {
    program
        .arg(option(
            alloc,
            "bound",
            "The greatest number of steps of a run, 1 to 100000, in place of the policy's",
        ))?
        .arg(option(
            alloc,
            "workers",
            "How many workers share the control paths, 1 to 16",
        )
        .default_value("1"))?
        .arg(option(
            alloc,
            "budget",
            "The greatest number of clauses derived for one question, 0 to 1000000",
        )
        .default_value("20000"))?
        .arg(option(
            alloc,
            "targets",
            "The greatest number of targets explored of one jump, 1 to 256",
        )
        .default_value("16"))
}

/// A word that stands in its place.
fn word<'a>(alloc: Global, name: &'a str, help: &'a str) -> Arg<'a> {
    Arg::new(alloc, name).required(true).help(help)
}

/// An option of `check`, with its number.
fn option<'a>(alloc: Global, name: &'a str, help: &'a str) -> Arg<'a> {
    Arg::new(alloc, name)
        .long(name)
        .value_name("N")
        .help(help)
        .help_heading("Options of check")
}

#[cfg(test)]
mod tests {
    use super::usage_text;
    use std::test::Fail;

    #[test]
    fn names_each_command_and_option(rt: HostRuntime) -> Result<(), Fail> {
        let text = usage_text(rt.alloc())?;
        for part in [
            "ctrel byte <BINARY> <ENTRY> <BOUND>\n",
            "ctrel check <BINARY> <POLICY> [OPTIONS]\n",
            "ctrel replay <BINARY> <POLICY> <PAIR>\n",
            "ctrel trace <BINARY> <ENTRY> <BOUND>\n",
            "ctrel list <BINARY>\n",
            "ctrel gen <NUMBER> <SIZE>\n",
            "--bound <N>",
            "--workers <N>",
            "--budget <N>",
            "--targets <N>",
        ] {
            assert!(rt; text.as_str().contains(part), "{part}");
        }
        Ok(())
    }
}
