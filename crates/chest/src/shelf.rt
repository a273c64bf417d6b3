// A shelf of books, and the count of wrong tries.
ghost use Rattle.std.specs.Prelude.{◌≡◌, ◌≤◌, ◌<◌, length};
ghost use Rattle.session.specs.Books.{most_tries, shelf_places};

use crate::book::{Book, GivenBook};
use interfaces::code::Code;

// Places are numbered from 0.
pub const SHELF_PLACES: usize = 16;

// The most wrong tries that are counted; with so many, a book with a needed password stays shut.
pub const MOST_TRIES: u8 = 5;

#[derive(Drop)]
pub struct Shelf {
    pub(crate) books: [Option<Book>; SHELF_PLACES],
    pub(crate) tries: u8,
    ghost places: { length books ≡ shelf_places },
    ghost counted: { tries ≤ most_tries },
}

impl Shelf {
    ghost use Rattle.std.specs.Prelude.{suc, true, cond};
    ghost use Rattle.interfaces.specs.Checks.{refused_with, settled};
    ghost use Rattle.session.specs.Books.{empty_shelf, put_book_flaw, with_book, with_tries};
    ghost use Rattle.session.specs.Openings.{is_wrong_password};
    ghost use Rattle.chest.specs.Views.{given_book, shelf_of};

    // No books and no tries.
    pub fn new() -> Shelf
        ensures { shelf_of result ≡ empty_shelf }
    {
        Shelf {
            books: [None; SHELF_PLACES],
            tries: 0,
        }
    }

    // Puts a book at a place, instead of the one that stood there.
    pub fn put(&mut self, place: usize, book: GivenBook<'_>) -> Result<(), Code>
        ensures answer { result ≡ refused_with (put_book_flaw place (given_book book.entry)) tt }
        ensures after { shelf_of self.new ≡ settled (put_book_flaw place (given_book book.entry)) (with_book (shelf_of self.old) place (given_book book.entry)) (shelf_of self.old) }
    {
        if place >= SHELF_PLACES {
            return Err(Code::Handle);
        }
        let book = book.try_into()?;
        self.books[place] = Some(book);
        Ok(())
    }

    // Forgets the wrong tries.
    pub fn clear_tries(&mut self)
        ensures { shelf_of self.new ≡ with_tries (shelf_of self.old) 0 }
    {
        self.tries = 0;
    }

    // How many wrong tries are counted.
    pub fn tries(&self) -> usize
        ensures { result ≡ (shelf_of self.now).tries }
    {
        usize::from(self.tries)
    }

    // An accepted opening clears the tries where a password was needed.
    pub(crate) fn end_tries(&mut self, needed: bool)
        ensures { shelf_of self.new ≡ cond needed (with_tries (shelf_of self.old) 0) (shelf_of self.old) }
    {
        if needed {
            self.clear_tries();
        }
    }

    // A refused opening counts as a try where the password was wrong.
    pub(crate) fn count_refused(&mut self, refused: Code)
        requires { is_wrong_password refused ≡ true → (shelf_of self.old).tries < most_tries }
        ensures { shelf_of self.new ≡ cond (is_wrong_password refused) (with_tries (shelf_of self.old) (suc (shelf_of self.old).tries)) (shelf_of self.old) }
    {
        if refused == Code::AuthFail {
            self.tries += 1;
        }
    }
}
