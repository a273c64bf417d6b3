// The report on a run over a state block and the opening of a book behind it.
ghost use Rattle.std.specs.Prelude.{◌≡◌, ◌+◌, ◌≤◌, length, take, IfOk};
ghost use Rattle.interfaces.specs.Checks.{first, meant, refused_with};
ghost use Rattle.session.specs.Books.{content_limit, put_book_flaw};
ghost use Rattle.chest.specs.Views.{shelf_of};
ghost use Rattle.report.specs.BookFiles.{book_file_flaw, book_in};
ghost use Rattle.report.specs.OpeningReports.{files_flaw, first_place, opening_report, shelf_with, shown_content};
ghost use Rattle.report.specs.Rooms.{content_room};
ghost use Rattle.report.specs.Views.{Adds, report_bytes, taken_for};

use crate::book_file::read_book;
use crate::pieces::code_digits;
use crate::report::{Report, STATE_REPORT_LIMIT};
use block::block::Block;
use chest::book::CONTENT_LIMIT;
use chest::opening::open;
use chest::shelf::Shelf;
use interfaces::code::Code;
use interfaces::fault::Refusal;
use interfaces::hash::Hash;
use session::session::Session;

// The place that the book is put at.
const FIRST_PLACE: usize = 0;

// A shelf with the book of a file.
fn shelf_with(book: &[u8]) -> Result<Shelf, Code>
    ensures { meant shelf_of result ≡ refused_with (first (book_file_flaw book.now) (put_book_flaw first_place (book_in book.now))) (shelf_with (book_in book.now)) }
{
    let mut shelf = Shelf::new();
    shelf.put(FIRST_PLACE, read_book(book)?)?;
    Ok(shelf)
}

// The state and the shelf that the files mean, or the first refusal.
fn take_files<'a>(block: &'a [u8], book: &[u8]) -> Result<(Block<'a>, Shelf), Code>
    ensures { meant taken_for result ≡ refused_with (files_flaw block.now book.now) (block.now, shelf_with (book_in book.now)) }
{
    let state = Block::try_from(block)?;
    let shelf = shelf_with(book)?;
    Ok((state, shelf))
}

impl<const N: usize> Report<N> {
    // The content that an opening wrote, or the code of its refusal.
    fn add_content(&mut self, opened: &Result<usize, Code>, content: &[u8; CONTENT_LIMIT])
        requires written { IfOk opened.now (λ n. n ≤ content_limit) }
        requires room { length (report_bytes self.old) + content_room ≤ N }
        ensures { Adds (report_bytes self.old) (shown_content (meant (λ n. take n content.now) opened.now)) content_room (report_bytes self.new) }
    {
        match opened {
            Ok(len) => self.add_bytes(b"content", &content[..*len]),
            Err(code) => self.add_word(b"refused", &code_digits(*code)),
        }
    }
}

// The lines that say what a run on a fresh policy session over a state block came to, and then the opening
// of a book file's book with that session and a given password.
pub fn opening_report<H: Hash + Drop>(
    hash: H,
    block: &[u8],
    text: &[u8],
    book: &[u8],
    given: &[u8],
) -> Report<STATE_REPORT_LIMIT>
    ensures { report_bytes result ≡ opening_report (H.meaning hash) block.now text.now book.now given.now }
{
    let mut report = Report::new();
    let (state, mut shelf) = match take_files(block, book) {
        Ok(taken) => taken,
        Err(code) => {
            report.add_fault(&Refusal::call(code).at(0));
            return report;
        }
    };
    let mut session = Session::policy(hash);
    report.add_lines(&session.run(&state, text));
    let mut content = [0; CONTENT_LIMIT];
    let opened = open(
        &mut session,
        &state,
        &mut shelf,
        FIRST_PLACE,
        given,
        &mut content,
    );
    report.add_content(&opened, &content);
    report.add_count(b"tries", shelf.tries());
    report.add_progress(&session.progress());
    session.end();
    report
}
