//! A cache of settled questions, for one thread.

use crate::copying::copy_of_verdict;
use crate::kept::Kept;
use lru::LruCache;
use query_ask::{Checked, Question, Verdict};
use std::alloc::{AllocError, Global};
use std::marker::Model;
use std::num::NonZeroUsize;

/// How many entries are kept.
pub const MOST_ENTRIES: usize = 4096;

/// How many nodes a question may have that is kept.
pub const MOST_NODES: usize = 4096;

/// Questions with verdicts that are right for them. The most recent come first, and the last goes where
/// there are too many.
///
/// Contracts see a cache as the list of its entries, and how often it answered a verdict.
#[derive(Debug, Drop)]
pub struct Cache {
    settled: LruCache<Question, Verdict>,
    hits: u64,
}

impl Model for Cache {
    ghost use Rattle.query_cache.specs.Cached.{Cached, AreKept};

    ghost Value = { Cached };

    ghost view = { λ cache. record { entries = cache.settled.entries; hits = cache.hits } };

    ghost invariant = { λ cache. AreKept cache.settled.entries cache.settled.cap };
}

impl Cache {
    ghost use Rattle.std.specs.Prelude.{◌≡◌, ◌≤◌, ◌<◌, ◌^◌, [], length, All, slice_get, option_map, option_copied, IfOk, IfSome};
    ghost use Rattle.std.specs.Borrow.{sem};
    ghost use Rattle.query_ask.specs.Verdicts.{IsVerdict};
    ghost use Rattle.query_cache.specs.Cached.{HasVerdict, HasFound, HasKept, HasRightVerdict, IsSmall, AreApart};
    ghost use Rattle.query_cache.specs.Looking.{EndsLooked};

    /// A cache with no entry.
    pub fn new(alloc: Global) -> Result<Cache, AllocError>
        ensures { IfOk result (λ cache. cache ≡ record { entries = []; hits = 0 }) }
    {
        let most = NonZeroUsize::new(MOST_ENTRIES).unwrap();
        Ok(Cache {
            settled: LruCache::new(alloc, most)?,
            hits: 0,
        })
    }

    /// The verdict on a question, where one is kept. Its entry is then the most recent.
    pub fn look(&mut self, question: &Question) -> Option<&Verdict>
        ensures* leaves { sem 𝓛 (EndsLooked self.entry question.now result) }
        ensures answer { HasVerdict question.now self.old.entries (option_copied result) }
        ensures right { IfSome result (λ verdict. IsVerdict question.now verdict.now) }
    {
        self.law();
        if !self.find(question) {
            return None;
        }
        self.most_recent()
    }

    /// Keeps a question with its verdict as the most recent entry.
    pub fn keep(&mut self, entry: Checked) -> Kept
        ensures { HasKept entry self.old result self.new }
    {
        if entry.question().nodes().len() > MOST_NODES {
            return Kept::TooLarge;
        }
        entry.law();
        let (question, verdict) = entry.into_parts();
        match self.settled.put(question, verdict) {
            Ok(_) => Kept::Done,
            Err(_) => Kept::Memory,
        }
    }

    /// How often a verdict was answered. The count stands still at 2^64 - 1.
    pub fn hits(&self) -> u64
        ensures { result ≡ self.now.hits }
    {
        self.hits
    }

    /// Law: the verdicts are right for their questions, which have few nodes, there are few entries, and no
    /// two are about one question.
    pub fn law(&self)
        ensures right { All HasRightVerdict self.now.entries }
        ensures small { All IsSmall self.now.entries }
        ensures few { length self.now.entries ≤ MOST_ENTRIES }
        ensures apart { AreApart self.now.entries }
    {
        let _entries = self.settled.len();
    }

    /// A copy of the verdict on a question, where one is kept.
    pub(crate) fn look_for_copy(
        &mut self,
        alloc: Global,
        question: &Question,
    ) -> Result<Option<Verdict>, AllocError>
        ensures { IfOk result (λ found. IfSome found (IsVerdict question.now)) }
    {
        match self.look(question) {
            Some(verdict) => Ok(Some(copy_of_verdict(alloc, verdict)?)),
            None => Ok(None),
        }
    }

    /// Brings the entry of a question to the front, and counts it. False where there is none.
    fn find(&mut self, question: &Question) -> bool
        ensures { HasFound question.now self.old result self.new }
    {
        if !self.settled.promote(question) {
            return false;
        }
        self.hits = self.hits.saturating_add(1);
        true
    }

    /// The verdict of the first entry.
    fn most_recent(&self) -> Option<&Verdict>
        ensures verdict { option_copied result ≡ option_map (λ entry. entry.1) (slice_get self.now.entries 0) }
    {
        let (_, verdict) = self.settled.peek_mru()?;
        Some(verdict)
    }
}
