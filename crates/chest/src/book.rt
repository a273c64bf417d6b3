// Books: each is opened with a policy session, and its content is what the opening gives.
ghost use Rattle.std.specs.Prelude.{◌≡◌};

use arrays::array_vec::ArrayVec;
use interfaces::code::Code;
use interfaces::digest::Digest;

// The longest password and the longest content, in bytes.
pub const PASSWORD_LIMIT: usize = 32;

pub const CONTENT_LIMIT: usize = 128;

// A book as it is given, before its checks.
#[derive(Clone, Copy)]
pub struct GivenBook<'a> {
    // The identifier of the hash that the policy was digested by.
    pub identifier: u16,
    // The policy's digest.
    pub digest: &'a [u8],
    pub password: &'a [u8],
    pub content: &'a [u8],
}

#[derive(Clone, Copy)]
pub struct Book {
    pub(crate) identifier: u16,
    pub(crate) digest: Digest,
    pub(crate) password: ArrayVec<u8, PASSWORD_LIMIT>,
    pub(crate) content: ArrayVec<u8, CONTENT_LIMIT>,
}

// A digest of another length, and a password or content over its limit, are refused.
impl TryFrom<GivenBook<'_>> for Book {
    ghost use Rattle.interfaces.specs.Checks.{meant, refused_with};
    ghost use Rattle.chest.specs.Views.{book_of, given_book, sizes_flaw};

    type Error = Code;

    ghost try_from_gives = { λ given r. meant book_of r ≡ refused_with (sizes_flaw (given_book given)) (given_book given) };

    fn try_from(given: GivenBook<'_>) -> Result<Book, Code> {
        let bytes = given.digest.try_into()?;
        let mut password = ArrayVec::new(0);
        password.extend(given.password).map_err(|_| Code::Size)?;
        let mut content = ArrayVec::new(0);
        content.extend(given.content).map_err(|_| Code::Size)?;
        Ok(Book {
            identifier: given.identifier,
            digest: Digest { bytes },
            password,
            content,
        })
    }
}
