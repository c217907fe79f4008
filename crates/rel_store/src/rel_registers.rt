//! The registers of two runs.

ghost use Rattle.std.specs.Prelude.{◌≡◌, ◌==◌, ◌<◌, Some, IfOk, length, replicate, slice_get, slice_set, if◌then◌else◌};
ghost use Rattle.rel_store.specs.declared.rel_value.RelValue.TheVariants.{Same};
ghost use Rattle.rel_store.specs.declared.rel_registers.TheConstants.{REGISTERS};

use crate::rel_value::RelValue;
use bv_expr::ExprId;
use std::alloc::{AllocError, Global};
use std::marker::Model;

/// How many registers there are (RISC-V unprivileged manual, RV32I).
pub const REGISTERS: usize = 32;

/// The registers x0 to x31 of two runs, seen as the list of their values.
#[derive(Debug, Drop)]
pub struct RelRegisters {
    values: Vec<RelValue>,
}

impl Model for RelRegisters {
    ghost use Rattle.std.specs.Prelude.{◌≡◌, List, length};
    ghost use Rattle.rel_store.specs.declared.rel_value.RelValue.{RelValue};
    ghost use Rattle.rel_store.specs.declared.rel_registers.TheConstants.{REGISTERS};

    ghost Value = { List RelValue };

    ghost view = { λ registers. registers.values.items };

    ghost invariant = { λ registers. length registers.values.items ≡ REGISTERS };
}

impl RelRegisters {
    /// All registers hold one expression.
    pub fn new(alloc: Global, zero: ExprId) -> Result<RelRegisters, AllocError>
        ensures { IfOk result (λ registers. registers ≡ replicate REGISTERS (Same zero)) }
    {
        let values = vec![in alloc; RelValue::Same(zero); REGISTERS]?;
        Ok(RelRegisters { values })
    }

    /// The value of a register.
    pub fn get(&self, reg: u32) -> RelValue
        requires { reg < REGISTERS }
        ensures { slice_get self.now reg ≡ Some result }
    {
        let _count = self.values.len();
        self.values[reg as usize]
    }

    /// Gives a register a value; x0 stays as it is.
    pub fn set(&mut self, reg: u32, value: RelValue)
        requires { reg < REGISTERS }
        ensures { self.new ≡ (if reg == 0 then self.old else slice_set self.old reg value) }
    {
        if reg != 0 {
            self.values[reg as usize] = value;
        }
    }

    /// Law: there are 32 registers.
    pub fn law(&self)
        ensures { length self.now ≡ REGISTERS }
    {
        let _count = self.values.len();
    }
}
