//! How the program is called.

/// How the program is called, and what its words stand for.
pub(crate) const USAGE: &str =
    "Shows one run of a policy's job: what each step shows, and how the run ended

Usage: ctrace <BINARY> <POLICY> [PAIR]

Arguments:
  <BINARY>  A static RV32IM ELF file
  <POLICY>  A TOML file that says where the routine begins and stops and which bytes are secret
  [PAIR]    A file with a pair, whose shared and left bytes are taken; without it all are 0
";
