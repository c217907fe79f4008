//! The TOML document that bytes are.
ghost use Rattle.std.specs.Prelude.{◌≡◌, ◌≢◌, Some, None, IfOk, IfErr};
ghost use Rattle.toml.specs.View.{view};
ghost use Rattle.ct_document.specs.Document.{document_of};

use crate::refusal::PolicyRefusal;
use std::alloc::Global;
use toml::Value;

/// The document that bytes are: UTF-8, and TOML 1.1. Time and memory grow with the bytes.
#[tactic(auto, unfolding(crate::specs::Document::document_of))]
pub fn read_document(alloc: Global, bytes: &[u8]) -> Result<Value, PolicyRefusal>
    ensures document { IfOk result (λ document. document_of bytes.now ≡ Some (view document)) }
    ensures refused { IfErr result
        (λ refusal. refusal ≢ PolicyRefusal.Memory → (refusal ≡ PolicyRefusal.Toml) × (document_of bytes.now ≡ None)) }
{
    match toml::table_from_slice(alloc, bytes) {
        Ok(table) => Ok(Value::Table(table)),
        Err(error) => {
            if error.is_memory() {
                Err(PolicyRefusal::Memory)
            } else {
                Err(PolicyRefusal::Toml)
            }
        }
    }
}
