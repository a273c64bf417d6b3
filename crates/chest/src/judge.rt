// The checks of an opening: of the book against the session, the state, the tries and what is given.
ghost use Rattle.std.specs.Prelude.{◌≡◌, not, ◌&&◌, ◌||◌, length, ◌==◌, nat_le};
ghost use Rattle.std.specs.Option.{option_map};
ghost use Rattle.std.specs.Str.{bytes_eq};
ghost use Rattle.interfaces.specs.declared.code.Code.TheVariants.{AuthFail, Lockout, Locality, PolicyFail, Pp, Size};
ghost use Rattle.interfaces.specs.Checks.{first, meant, refused_with, unless};
ghost use Rattle.session.specs.Books.{book_at};
ghost use Rattle.session.specs.Openings.{allows_locality, book_flaw, has_locality, same_password, tries_left};
ghost use Rattle.session.specs.Views.{hash_in, progress_in};
ghost use Rattle.chest.specs.Opened.{opening_with};
ghost use Rattle.chest.specs.Views.{book_of, request_of, shelf_of};

use crate::book::Book;
use crate::opening::UNSEAL;
use crate::same::same_bytes;
use crate::shelf::{MOST_TRIES, Shelf};
use interfaces::code::Code;
use interfaces::digest::Digest;
use interfaces::hash::Hash;
use interfaces::state::ReaderState;
use session::judge::judge_same;
use session::kind::Policy;
use session::session::Session;

// What an opening is asked.
#[derive(Clone, Copy)]
pub(crate) struct Request<'a> {
    pub(crate) place: usize,
    // The password given.
    pub(crate) given: &'a [u8],
    // The bytes of the buffer.
    pub(crate) room: usize,
}

// Whether the set has the locality that the state is used at.
fn has_locality<S: ReaderState>(set: u8, state: &S) -> bool
    ensures { result ≡ has_locality set (S.observed state.now).locality }
{
    set & (1 << state.locality()) != 0
}

fn judge_locality<S: ReaderState>(recorded: Option<u8>, state: &S) -> Result<(), Code>
    ensures { result ≡ refused_with (unless (allows_locality recorded (S.observed state.now).locality) Locality) tt }
{
    match recorded {
        Some(set) if !has_locality(set, state) => Err(Code::Locality),
        _ => Ok(()),
    }
}

fn judge_presence<S: ReaderState>(needed: bool, state: &S) -> Result<(), Code>
    ensures { result ≡ refused_with (unless (not needed || (S.observed state.now).presence) Pp) tt }
{
    if needed && !state.presence() {
        return Err(Code::Pp);
    }
    Ok(())
}

impl Book {
    // The book's policy is the one that the session has kept.
    fn judge_policy(&self, identifier: u16, digest: &Digest) -> Result<(), Code>
        ensures { result ≡ refused_with (unless ((book_of self.now).identifier == identifier && bytes_eq (book_of self.now).digest digest.now.bytes) PolicyFail) tt }
    {
        if self.identifier != identifier || !same_bytes(&self.digest.bytes, &digest.bytes) {
            return Err(Code::PolicyFail);
        }
        Ok(())
    }

    // What is given is the book's password, where one is needed: else it is not looked at.
    fn judge_password(&self, needed: bool, given: &[u8]) -> Result<(), Code>
        ensures { result ≡ refused_with (unless (not needed || same_password given.now (book_of self.now).password) AuthFail) tt }
    {
        if needed && !same_bytes(given, self.password.as_slice()) {
            return Err(Code::AuthFail);
        }
        Ok(())
    }

    fn judge_room(&self, room: usize) -> Result<(), Code>
        ensures { result ≡ refused_with (unless (nat_le (length (book_of self.now).content) room) Size) tt }
    {
        if self.content.len() > room {
            return Err(Code::Size);
        }
        Ok(())
    }
}

impl Shelf {
    fn book(&self, place: usize) -> Option<&Book>
        ensures { option_map (λ b. book_of b.now) result ≡ book_at (shelf_of self.now) place }
    {
        self.books.get(place)?.as_ref()
    }

    // Tries are left, where a password is needed.
    fn judge_tries(&self, needed: bool) -> Result<(), Code>
        ensures { result ≡ refused_with (unless (not needed || tries_left (shelf_of self.now)) Lockout) tt }
    {
        if needed && self.tries >= MOST_TRIES {
            return Err(Code::Lockout);
        }
        Ok(())
    }

    // The checks of the book, in their order.
    fn judge_book<H: Hash, S: ReaderState>(
        &self,
        session: &Session<H, Policy>,
        state: &S,
        request: Request<'_>,
        book: &Book,
    ) -> Result<(), Code>
        ensures { result ≡ refused_with (book_flaw (H.meaning (hash_in session.now)) (S.observed state.now) (shelf_of self.now) (progress_in session.now) (request_of request.entry) (book_of book.now)) tt }
    {
        let progress = session.progress();
        judge_same(progress.count, state.change_count(), Code::PcrChanged)?;
        book.judge_policy(session.identifier(), &progress.digest)?;
        judge_same(progress.command, UNSEAL, Code::PolicyCc)?;
        judge_locality(progress.localities, state)?;
        judge_presence(progress.presence, state)?;
        self.judge_tries(progress.password)?;
        book.judge_password(progress.password, request.given)?;
        book.judge_room(request.room)
    }

    // The book that an opening opens, or the first refusal.
    pub(crate) fn judge<H: Hash, S: ReaderState>(
        &self,
        session: &Session<H, Policy>,
        state: &S,
        request: Request<'_>,
    ) -> Result<&Book, Code>
        ensures { meant (λ b. book_of b.now) result ≡ opening_with H.meaning (S.observed state.now) session.now self.now (request_of request.entry) }
    {
        let book = self.book(request.place).ok_or(Code::Handle)?;
        self.judge_book(session, state, request, book)?;
        Ok(book)
    }
}
