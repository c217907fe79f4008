//! Fixed valuations, which are tried before anything is searched.
ghost use Rattle.std.specs.Prelude.{◌≡◌, length, IfOk, IfSome};
ghost use Rattle.query_ask.specs.Answers.{DoMeet};

use crate::meeting::meets;
use crate::question::Question;
use bv_expr::Values;
use ct_rows::Row;
use std::alloc::{AllocError, Global};

/// A fixed valuation: which byte each variable has.
#[derive(Clone, Copy)]
enum Guess {
    Zeros,
    Ones,
    /// Each 0xff.
    Full,
    /// 1 for the even variables, and else 0.
    Even,
    /// 1 for the odd variables, and else 0.
    Odd,
    /// Each its own number.
    Number,
    /// The complement of its number.
    Complement,
    /// 0x55 and 0xaa in turn.
    Stripes,
}

const GUESSES: [Guess; 8] = [
    Guess::Zeros,
    Guess::Ones,
    Guess::Full,
    Guess::Even,
    Guess::Odd,
    Guess::Number,
    Guess::Complement,
    Guess::Stripes,
];

/// The first of the fixed valuations that meets a question, if one does.
pub(crate) fn try_guesses(alloc: Global, question: &Question) -> Result<Option<Values>, AllocError>
    ensures { IfOk result (λ found. IfSome found (DoMeet question.now)) }
{
    let mut results = Vec::new(alloc);
    for guess in GUESSES {
        let values = guessed(alloc, guess, question.vars())?;
        if meets(question, &values, &mut results)? {
            return Ok(Some(values));
        }
    }
    Ok(None)
}

// The valuation of the variables below a number.
fn guessed(alloc: Global, guess: Guess, vars: usize) -> Result<Values, AllocError>
    ensures { IfOk result (λ values. length values.0 ≡ vars) }
{
    let mut bytes = Vec::new(alloc);
    for variable in 0..vars {
        bytes.push(byte_of(guess, variable))?;
    }
    Ok(Values(Row::from_vec(bytes)))
}

fn byte_of(guess: Guess, variable: usize) -> u8 {
    let odd = (variable % 2) as u8;
    let low = (variable % 0x100) as u8;
    match guess {
        Guess::Zeros => 0,
        Guess::Ones => 1,
        Guess::Full => 0xff,
        Guess::Even => 1 - odd,
        Guess::Odd => odd,
        Guess::Number => low,
        Guess::Complement => 0xff - low,
        Guess::Stripes => 0x55 + 0x55 * odd,
    }
}
