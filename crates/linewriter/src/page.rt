//! The page that a report is written into.
ghost use Rattle.std.specs.Prelude.{◌≡◌, ◌≤◌, [], length};
ghost use Rattle.linewriter.specs.Pages.{Adds, page_size, written};

use arrayvec::ArrayVec;
use thiserror::Error;

// How many bytes a page holds.
pub const PAGE_SIZE: usize = 16_384;

#[derive(Drop)]
pub struct Page {
    pub(crate) bytes: ArrayVec<u8, PAGE_SIZE>,
}

// The page has no room for the line, of which nothing was written.
#[derive(Clone, Copy, Debug, PartialEq, Eq, Error)]
#[error("the page has no room for the line")]
pub struct Full;

impl Page {
    pub fn blank() -> Page
        ensures { written result ≡ [] }
    {
        Page {
            bytes: ArrayVec::new(),
        }
    }

    // What is written so far.
    pub fn as_slice(&self) -> &[u8]
        ensures value { result.now ≡ written self.now }
        ensures fits { length result.now ≤ page_size }
    {
        self.bytes.as_slice()
    }

    // Writes a text behind what is written so far.
    pub fn append(&mut self, text: &[u8]) -> Result<(), Full>
        ensures { Adds result text.now self.old self.new }
    {
        self.bytes.try_extend_from_slice(text).map_err(|_| Full)
    }
}
