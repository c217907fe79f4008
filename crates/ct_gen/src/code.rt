//! The code of a number and a size.
ghost use Rattle.std.specs.Prelude.{◌≡◌, IfOk};
ghost use Rattle.ct_gen.specs.Code.{code_of};

use crate::block::push_return;
use crate::generator::Generator;
use std::alloc::{AllocError, Global};

/// The words of the code of a number and a size: so many blocks, and a return.
#[tactic(auto, unfolding(crate::specs::Code::code_of))]
pub fn code_of(alloc: Global, number: u32, size: u32) -> Result<Vec<u32>, AllocError>
    ensures { IfOk result (λ code. code.items ≡ code_of number size) }
{
    let mut code = Vec::new(alloc);
    let mut generator = Generator {
        number,
        followed: 0,
    };
    'turns: for _block in 0..size {
        generator.next_block().push(&mut code)?;
    }
    push_return(&mut code)?;
    Ok(code)
}
