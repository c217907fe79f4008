//! A line on standard error that says how far a check is.

use ct_outside::Gate;
use std::fs;
use std::sync::atomic::{AtomicU64, Ordering};
use std::time::Instant;

/// For how many milliseconds a line stands at least.
const BEAT: u128 = 300;

/// Shows on standard error, where that is a terminal, how many paths the members of a crew have taken, and for how many
/// seconds the check runs: one line, which is written again a few times a second at most. Elsewhere it shows nothing.
#[derive(Drop)]
pub struct Progress<'a> {
    rt: &'a HostRuntime,
    /// When the check began, where it is shown.
    start: Option<Instant>,
    taken: AtomicU64,
    /// How many beats had gone when the line was written last.
    shown: AtomicU64,
}

/// Whether standard error is a terminal, as the system names it.
fn is_terminal(rt: &HostRuntime) -> bool {
    match fs::read_link(rt, "/proc/self/fd/2") {
        Ok(path) => path.starts_with("/dev/pts") || path.starts_with("/dev/tty"),
        Err(_) => false,
    }
}

impl<'a> Progress<'a> {
    /// The progress of a check that begins now.
    pub fn new(rt: &'a HostRuntime) -> Progress<'a> {
        let start = if is_terminal(rt) {
            Instant::now(rt).ok()
        } else {
            None
        };
        Progress {
            rt,
            start,
            taken: AtomicU64::new(0),
            shown: AtomicU64::new(0),
        }
    }

    /// Clears the line, if it was written.
    pub fn clear(&self) {
        if self.shown.load(Ordering::SeqCst) > 0 {
            let _ = eprint!(self.rt; "\r\x1b[K");
        }
    }
}

impl Gate for Progress<'_> {
    fn pass(&self, _member: u32) {
        let Some(start) = self.start else {
            return;
        };
        let taken = self.taken.fetch_add(1, Ordering::SeqCst);
        let Ok(time) = start.elapsed(self.rt) else {
            return;
        };
        let Ok(beats) = u64::try_from(time.as_millis() / BEAT) else {
            return;
        };
        let shown = self.shown.load(Ordering::SeqCst);
        if beats <= shown {
            return;
        }
        let is_mine = self
            .shown
            .compare_exchange(shown, beats, Ordering::SeqCst, Ordering::SeqCst);
        if is_mine.is_ok() {
            let _ = eprint!(self.rt; "\r{taken} paths, {} s", time.as_secs());
        }
    }
}
