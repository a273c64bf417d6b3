// A text cut into lines, and a line into fields.
ghost use Rattle.std.specs.Prelude.{◌≡◌, ◌<◌, [], ◌∷◌, length, position, ◌==◌, MatchOption};
ghost use Rattle.std.specs.Iterator.{item_count, YieldsFirstRef};
ghost use Rattle.std.specs.Option.{option_map};
ghost use Rattle.text.specs.Cut.{before, after, lines, fields, further, first_line};

pub const LINE_FEED: u8 = b'\n';

pub const TAB: u8 = b'\t';

fn find(s: &[u8], b: u8) -> Option<usize>
    ensures { result ≡ position (λ c. c == b) s.now }
{
    s.iter().position(|c| *c == b)
}

// What stands before the first `b`, and what follows it if there is one.
pub fn split_once(s: &[u8], b: u8) -> (&[u8], Option<&[u8]>)
    ensures front { result.0.now ≡ before b s.now }
    ensures back { option_map (λ x. x.now) result.1 ≡ after b s.now }
{
    match find(s, b) {
        Some(i) => (&s[..i], Some(&s[i + 1..])),
        None => (s, None),
    }
}

// The first line and what follows it; none where no line is left.
pub fn first_line(text: &[u8]) -> Option<(&[u8], &[u8])>
    ensures value { option_map (λ p. (p.0.now, p.1.now)) result ≡ first_line text.now }
    ensures cut { MatchOption result (lines text.now ≡ []) (λ p. lines text.now ≡ p.0.now ∷ lines p.1.now) }
    ensures shorter { MatchOption result (length text.now ≡ 0) (λ p. length p.1.now < length text.now) }
{
    if text.is_empty() {
        return None;
    }
    let (line, rest) = split_once(text, LINE_FEED);
    Some((line, rest.unwrap_or(&[])))
}

// The lines of a text, in order.
#[derive(Clone, Copy)]
pub struct Lines<'a> {
    pub(crate) rest: &'a [u8],
}

impl<'a> Iterator for Lines<'a> {
    type Item = &'a [u8];

    ghost next_gives = { YieldsFirstRef (λ s. lines s.rest.now) };

    ghost remaining = { item_count (λ s. lines s.rest.now) };

    fn next(&mut self) -> Option<&'a [u8]> {
        let (line, rest) = first_line(self.rest)?;
        self.rest = rest;
        Some(line)
    }
}

impl Lines<'_> {
    pub fn new(text: &[u8]) -> Lines<'_>
        ensures { result.rest.now ≡ text.now }
    {
        Lines { rest: text }
    }
}

pub fn count_lines(text: &[u8]) -> usize
    ensures { result ≡ length (lines text.now) }
{
    Lines::new(text).count()
}

// The first field of a line, and what follows its tab if there is one.
pub fn first_field(line: &[u8]) -> (&[u8], Option<&[u8]>)
    ensures { fields line.now ≡ result.0.now ∷ further (option_map (λ x. x.now) result.1) }
{
    split_once(line, TAB)
}

// The fields that follow a tab, in order; none where no tab follows.
#[derive(Clone, Copy)]
pub struct Fields<'a> {
    pub(crate) rest: Option<&'a [u8]>,
}

impl<'a> Iterator for Fields<'a> {
    type Item = &'a [u8];

    ghost next_gives = { YieldsFirstRef (λ s. further (option_map (λ x. x.now) s.rest)) };

    ghost remaining = { item_count (λ s. further (option_map (λ x. x.now) s.rest)) };

    fn next(&mut self) -> Option<&'a [u8]> {
        let (field, rest) = first_field(self.rest?);
        self.rest = rest;
        Some(field)
    }
}

impl Fields<'_> {
    pub fn new(rest: Option<&[u8]>) -> Fields<'_>
        ensures { option_map (λ x. x.now) result.rest ≡ option_map (λ x. x.now) rest.entry }
    {
        Fields { rest }
    }
}
