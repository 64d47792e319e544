//! How far a file is read, told on standard error.

use std::fs;
use std::time::{Duration, Instant};

/// For how many seconds nothing is told.
const QUIET: u64 = 2;

/// How many seconds are between two times that it is told.
const PAUSE: u64 = 1;

/// How far a file is read. It is told on standard error, in one line that is written over each second, and that ends where
/// this is dropped.
pub(crate) struct Progress<'r> {
    rt: &'r HostRuntime,
    /// The file's name.
    name: &'r str,
    /// How many bytes the file had when it was opened.
    total: u64,
    /// How many of them were read.
    done: u64,
    /// When it is told next.
    next: Instant,
    /// It was told.
    shown: bool,
}

impl<'r> Progress<'r> {
    /// Before a file's first byte is read. There is none where the file's length or the time isn't known.
    pub(crate) fn of_file(rt: &'r HostRuntime, name: &'r str) -> Option<Self> {
        let metadata = fs::metadata(rt, name).ok()?;
        if !metadata.is_file() {
            return None;
        }
        Some(Progress {
            rt,
            name,
            total: metadata.len(),
            done: 0,
            next: Instant::now(rt)
                .ok()?
                .checked_add(Duration::from_secs(QUIET))?,
            shown: false,
        })
    }

    /// How many of 100 parts of the file were read.
    fn percent(&self) -> u64 {
        let hundredths = self.done.saturating_mul(100);
        hundredths.checked_div(self.total).unwrap_or(100).min(100)
    }

    /// Tells how far the file is read.
    fn show(&mut self) {
        let name = self.name;
        let percent = self.percent();
        let _ = eprint!(self.rt; "\rsval: {name}: {percent} %");
        self.shown = true;
    }

    /// Counts bytes that were read, and tells how far the file is read where that is due.
    pub(crate) fn advance(&mut self, count: usize) {
        self.done = self.done.saturating_add(count as u64);
        let Ok(now) = Instant::now(self.rt) else {
            return;
        };
        if now < self.next {
            return;
        }
        if let Some(next) = now.checked_add(Duration::from_secs(PAUSE)) {
            self.next = next;
        }
        self.show();
    }
}

impl<'r> Drop for Progress<'r> {
    fn drop(self) {
        if self.shown {
            let _ = eprint!(self.rt; "\n");
        }
        let Progress {
            rt: _,
            name: _,
            total: _,
            done: _,
            next: _,
            shown: _,
        } = self;
    }
}
