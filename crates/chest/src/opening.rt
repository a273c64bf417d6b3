// Opening a book.
ghost use Rattle.std.specs.Prelude.{◌≡◌, true, length};
ghost use Rattle.interfaces.specs.Checks.{counted, left_in};
ghost use Rattle.session.specs.Events.{Follows, opened};
ghost use Rattle.session.specs.Kept.{Kept};
ghost use Rattle.session.specs.Openings.{content_of, session_after, shelf_after};
ghost use Rattle.session.specs.Views.{hash_in, progress_in};
ghost use Rattle.chest.specs.Opened.{asked, opening_with, OpensByAKeptBranch};
ghost use Rattle.chest.specs.Views.{shelf_of};

use crate::judge::Request;
use crate::shelf::Shelf;
use interfaces::buffer::{clear, fill};
use interfaces::code::Code;
use interfaces::hash::Hash;
use interfaces::state::ReaderState;
use session::kind::Policy;
use session::session::Session;

// The code of the one command that opens a book, TPM2_Unseal.
pub const UNSEAL: u32 = 0x0000_015e;

// Opens the book at a place with a policy session: writes its content and zeros behind it, answers how
// many bytes the content has, and makes the session fresh again. Refused, it leaves zeros in the buffer
// and the session as it was. A wrong password counts as a try, the right one clears the tries.
pub fn open<H: Hash, S: ReaderState>(
    session: &mut Session<H, Policy>,
    state: &S,
    shelf: &mut Shelf,
    place: usize,
    given: &[u8],
    out: &mut [u8],
) -> Result<usize, Code>
    ensures answer { result ≡ counted (content_of (opening_with H.meaning (S.observed state.now) session.old shelf.old (asked place given.now (length out.old)))) }
    ensures written { out.new ≡ left_in (length out.old) (content_of (opening_with H.meaning (S.observed state.now) session.old shelf.old (asked place given.now (length out.old)))) }
    ensures session { progress_in session.new ≡ session_after (H.meaning (hash_in session.old)) (progress_in session.old) (opening_with H.meaning (S.observed state.now) session.old shelf.old (asked place given.now (length out.old))) }
    ensures follows { Follows true (H.meaning (hash_in session.old)) (progress_in session.old) (opened (S.observed state.now) (shelf_of shelf.old) (asked place given.now (length out.old))) (progress_in session.new) }
    ensures kept { Kept session.old session.new }
    ensures means { OpensByAKeptBranch H.meaning (S.observed state.now) session.old shelf.old (asked place given.now (length out.old)) }
    ensures shelf { shelf_of shelf.new ≡ shelf_after (shelf_of shelf.old) (progress_in session.old) (opening_with H.meaning (S.observed state.now) session.old shelf.old (asked place given.now (length out.old))) }
{
    let request = Request {
        place,
        given,
        room: out.len(),
    };
    match shelf.judge(session, state, request) {
        Ok(book) => {
            let written = fill(out, book.content.as_slice());
            shelf.end_tries(session.progress().password);
            session.restart();
            written
        }
        Err(refused) => {
            shelf.count_refused(refused);
            clear(out);
            Err(refused)
        }
    }
}
