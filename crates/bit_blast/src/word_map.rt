//! Words by numbers.

use bit_arith::Word;
use ct_rows::Row;
use gate_form::Wire;
use std::alloc::{AllocError, Global};
use std::collections::HashMap;

/// The words that there are, each by the number of a node or of a variable.
#[derive(Drop)]
pub struct WordMap {
    pub words: HashMap<usize, Row<Wire>>,
}

impl WordMap {
    ghost use Rattle.std.specs.Prelude.{ℕ, ◌≡◌, ◌==◌, Some, None, IsSome, is_some, OnOk, if◌then◌else◌};
    ghost use Rattle.bit_blast.specs.WordMaps.{words_of};

    pub fn new(alloc: Global) -> WordMap
        ensures { (k : ℕ) → words_of result k ≡ None }
    {
        WordMap {
            words: HashMap::new(alloc),
        }
    }

    pub fn has(&self, number: usize) -> bool
        ensures { result ≡ is_some (words_of self.now number) }
    {
        self.words.contains_key(&number)
    }

    pub fn word(&self, number: usize) -> &[Wire]
        requires { IsSome (words_of self.now number) }
        ensures { words_of self.now number ≡ Some result.now }
    {
        match self.words.get(&number) {
            Some(word) => word.as_slice(),
            None => unreachable!(),
        }
    }

    pub fn insert(&mut self, number: usize, word: Word) -> Result<(), AllocError>
        ensures { OnOk result ((q : ℕ) → words_of self.new q ≡ (if q == number then Some word.items else words_of self.old q)) }
    {
        self.words.insert(number, Row::from_vec(word))?;
        Ok(())
    }
}
