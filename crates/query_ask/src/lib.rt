//! Questions: whether some choice of input bytes makes expressions true.
#![tactic(auto)]

mod answer;
mod asking;
mod attempt;
mod checked;
mod cone;
mod formula;
mod guesses;
mod meeting;
mod of_arena;
mod parts;
mod placing;
mod question;
mod trying;
mod values_of;
mod variables;
mod verdict;

pub use answer::Answer;
pub use asking::ask;
pub use checked::Checked;
pub use of_arena::question_of;
pub use question::Question;
pub use variables::are_variables_below;
pub use verdict::Verdict;

#[cfg(test)]
mod tests;
