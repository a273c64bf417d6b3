// A book read from a file.
ghost use Rattle.std.specs.Prelude.{◌≡◌};
ghost use Rattle.interfaces.specs.Checks.{meant, refused_with};
ghost use Rattle.chest.specs.Views.{given_book};
ghost use Rattle.report.specs.BookFiles.{book_file_flaw, book_in};

use chest::book::GivenBook;
use interfaces::code::Code;
use interfaces::digest::DIGEST_LENGTH;

// The length of the hash's identifier.
const IDENTIFIER_LENGTH: usize = 2;

const PASSWORD_LENGTH_AT: usize = IDENTIFIER_LENGTH + DIGEST_LENGTH;

const PASSWORD_AT: usize = PASSWORD_LENGTH_AT + 1;

// The book that a file means. One that ends before its content is refused.
pub(crate) fn read_book(bytes: &[u8]) -> Result<GivenBook<'_>, Code>
    ensures { meant given_book result ≡ refused_with (book_file_flaw bytes.now) (book_in bytes.now) }
{
    if bytes.len() < PASSWORD_AT {
        return Err(Code::Size);
    }
    let content_at = PASSWORD_AT + bytes[PASSWORD_LENGTH_AT] as usize;
    if bytes.len() < content_at {
        return Err(Code::Size);
    }
    Ok(GivenBook {
        identifier: u16::from_be_bytes(bytes[..IDENTIFIER_LENGTH].try_into().unwrap()),
        digest: &bytes[IDENTIFIER_LENGTH..PASSWORD_LENGTH_AT],
        password: &bytes[PASSWORD_AT..content_at],
        content: &bytes[content_at..],
    })
}
