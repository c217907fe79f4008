//! What an instruction does that an observer can see.
ghost use Rattle.std.specs.Prelude.{◌≡◌};

use rv_decode::Instr;

/// What an instruction at a site does that an observer can see.
#[derive(Clone, Copy, Debug, PartialEq, Eq)]
pub enum Kind {
    Load,
    Store,
    Branch,
    /// JAL and JALR.
    Jump,
}

impl Kind {
    ghost use Rattle.ct_report.specs.Kind.{kind_of, kind_name};

    /// None where what an observer sees depends on the pc alone.
    pub fn of(instr: Instr) -> Option<Kind>
        ensures { result ≡ kind_of instr }
    {
        match instr {
            Instr::Load { .. } => Some(Kind::Load),
            Instr::Store { .. } => Some(Kind::Store),
            Instr::Branch { .. } => Some(Kind::Branch),
            Instr::Jal { .. } | Instr::Jalr { .. } => Some(Kind::Jump),
            _ => None,
        }
    }

    pub fn name(self) -> &'static str
        ensures { result.now ≡ kind_name self }
    {
        match self {
            Kind::Load => "load",
            Kind::Store => "store",
            Kind::Branch => "branch",
            Kind::Jump => "jump",
        }
    }
}
