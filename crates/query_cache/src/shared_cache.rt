//! A cache of settled questions that threads share.
ghost use Rattle.std.specs.Prelude.{IfOk, IfSome};
ghost use Rattle.query_ask.specs.Verdicts.{IsVerdict};
ghost use Rattle.query_cache.specs.Cached.{HasSize};

use crate::cache::Cache;
use crate::kept::Kept;
use query_ask::{Checked, Question, Verdict};
use std::alloc::{AllocError, Global};
use std::sync::{Mutex, Wait};

/// A cache under a lock. What others keep between two calls isn't known: a verdict that it answers is right
/// for the question asked.
#[derive(Drop)]
pub struct SharedCache {
    cache: Mutex<Cache>,
}

impl SharedCache {
    /// A cache with no entry.
    pub fn new(alloc: Global) -> Result<SharedCache, AllocError> {
        Ok(SharedCache {
            cache: Mutex::new(Cache::new(alloc)?),
        })
    }

    /// A copy of the verdict on a question, where one is kept.
    pub fn look<R: Wait>(
        &self,
        rt: &R,
        alloc: Global,
        question: &Question,
    ) -> Result<Option<Verdict>, AllocError>
        ensures { IfOk result (λ found. IfSome found (IsVerdict question.now)) }
    {
        let mut cache = self.cache.lock(rt);
        cache.look_for_copy(alloc, question)
    }

    /// Keeps a question with its verdict.
    pub fn keep<R: Wait>(&self, rt: &R, entry: Checked) -> Kept
        ensures { HasSize entry result }
    {
        let mut cache = self.cache.lock(rt);
        cache.keep(entry)
    }

    /// How often a verdict was answered. The count stands still at 2^64 - 1.
    pub fn hits<R: Wait>(&self, rt: &R) -> u64 {
        let cache = self.cache.lock(rt);
        cache.hits()
    }
}
