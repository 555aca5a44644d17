//! The one call that checks a line file.
ghost use Rattle.linereport.specs.Laws.{LinesFollowTheAccount};
ghost use Rattle.linefile.specs.File.{file_refusal};
ghost use Rattle.linereport.specs.Refusals.{key_number, report_refusal};
ghost use Rattle.linereport.specs.Report.{Reports, Written, room_questions};
ghost use Rattle.framing.specs.Asked.{Answers, put_in_front};
ghost use Rattle.linewriter.specs.Lines.{file_line, key_line};
ghost use Rattle.linewriter.specs.Pages.{written};
ghost use Rattle.std.specs.Prelude.{◌≡◌, length};

use crate::keys::{RefusedKey, tell_file};
use linefile::FileFault;
use linewriter::Page;
use thiserror::Error;

// Why a report is not written.
#[derive(Clone, Copy, Debug, PartialEq, Eq, Error)]
pub enum ReportRefusal {
    #[error("the output buffer does not hold the report")]
    NoRoom,
}

impl ReportRefusal {
    pub fn number(&self) -> u32
        ensures { result ≡ (report_refusal self.now).number }
    {
        match self {
            ReportRefusal::NoRoom => 55,
        }
    }
}

// The report on a file with a fault. (This and the next are two lines each; a helper that takes the line would be longer.)
fn fault_page(fault: FileFault) -> Page
    ensures { written result ≡ file_line (file_refusal fault).number (file_refusal fault).place }
{
    let mut page = Page::blank();
    page.file_line(fault.number(), fault.place).unwrap();
    page
}

// The report on a file whose key is refused.
fn key_page(refusal: RefusedKey) -> Page
    ensures { written result ≡ key_line (key_number refusal) }
{
    let mut page = Page::blank();
    page.key_line(refusal.number()).unwrap();
    page
}

// The report on the bytes of a file. The whole file is read before its key is tried.
fn report(file: &[u8]) -> Page
    ensures { Reports file.now (written result) }
{
    match linefile::parse(file) {
        Err(fault) => fault_page(fault),
        Ok(parts) => tell_file(&parts).unwrap_or_else(key_page),
    }
}

// Writes a text at the front of a buffer, if it holds the text.
fn put(text: &[u8], out: &mut [u8]) -> Result<usize, ReportRefusal>
    ensures { Answers report_refusal (room_questions text.now out.old) result (λ n. (n ≡ length text.now) × (out.new ≡ put_in_front text.now out.old)) (out.new ≡ out.old) }
{
    let len = text.len();
    if out.len() < len {
        return Err(ReportRefusal::NoRoom);
    }
    out[0..len].copy_from_slice(text);
    Ok(len)
}

// Checks a line file: writes the report on its bytes at the front of `out` and tells the report's length. A buffer that does not
// hold the report is left as it was.
pub fn check_line(file: &[u8], out: &mut [u8]) -> Result<usize, ReportRefusal>
    ensures written { Written file.now out.old result out.new }
    ensures accounted { LinesFollowTheAccount }
{
    let page = report(file);
    put(page.as_slice(), out)
}
