// Lines, words and decimal numbers of a text of bytes, read in place.
#![tactic(auto)]

ghost use Rattle.std.specs.Prelude.{◌≡◌, ◌<◌, ◌≤◌, ◌∷◌, length, drop, not, IfSome};
ghost use Rattle.std.specs.Iterator.{YieldsFirstRef, item_count};
ghost use Rattle.std.specs.List.{before_first, after_first, position_or_len};
ghost use Rattle.scan.specs.Pieces.{separates, pieces, first_line, after_line, lines, words, pieces_left, words_left, left, no_word};
ghost use Rattle.scan.specs.Numbers.{decimal_of};

// The bytes that end a piece of a text: an enum, so that cursors over any of them are of one type.
#[derive(Clone, Copy)]
pub enum Separators {
    LineFeeds,
    Spaces,
    SpacesAndCommas,
}

impl Separators {
    fn has(self, byte: u8) -> bool
        ensures { result ≡ separates self byte }
    {
        match self {
            Separators::LineFeeds => byte == b'\n',
            Separators::Spaces => byte == b' ',
            Separators::SpacesAndCommas => byte == b' ' || byte == b',',
        }
    }

    // The first piece without the separator that ends it, and what follows that.
    fn split_once(self, text: &[u8]) -> (&[u8], &[u8])
        ensures before { result.0.now ≡ before_first (separates self) text.now }
        ensures after { result.1.now ≡ after_first (separates self) text.now }
        ensures meaning { 0 < length text.now → pieces (separates self) text.now ≡ result.0.now ∷ pieces (separates self) result.1.now }
    {
        match text.iter().position(|&byte| self.has(byte)) {
            Some(end) => (&text[..end], &text[end + 1..]),
            None => (text, &[]),
        }
    }

    // What follows the separators at the front, which are passed in one go.
    fn skip(self, text: &[u8]) -> &[u8]
        ensures { result.now ≡ drop (position_or_len (λ b. not (separates self b)) text.now) text.now }
    {
        match text.iter().position(|&byte| !self.has(byte)) {
            Some(start) => &text[start..],
            None => &[],
        }
    }
}

// The first line without its line feed, and what follows it.
pub fn split_line(text: &[u8]) -> (&[u8], &[u8])
    ensures line { result.0.now ≡ first_line text.now }
    ensures rest { result.1.now ≡ after_line text.now }
    ensures meaning { 0 < length text.now → lines text.now ≡ result.0.now ∷ lines result.1.now }
    ensures shorter { 0 < length text.now → length result.1.now < length text.now }
{
    Separators::LineFeeds.split_once(text)
}

// The pieces of a text that are still to come.
#[derive(Clone, Copy)]
pub struct Pieces<'a> {
    rest: &'a [u8],
    separators: Separators,
}

impl<'a> Iterator for Pieces<'a> {
    type Item = &'a [u8];

    ghost next_gives = { YieldsFirstRef pieces_left };

    ghost remaining = { item_count pieces_left };

    fn next(&mut self) -> Option<&'a [u8]> {
        if self.rest.is_empty() {
            return None;
        }
        let (piece, rest) = self.separators.split_once(self.rest);
        self.rest = rest;
        Some(piece)
    }
}

impl<'a> Pieces<'a> {
    // The next piece that is not empty: the one behind the separators at the front, which are passed in one go.
    fn next_word(&mut self) -> Option<&'a [u8]>
        ensures { YieldsFirstRef words_left self.old result self.new }
    {
        self.rest = self.separators.skip(self.rest);
        self.next()
    }
}

// The lines of a text without their line feeds.
pub fn lines(text: &[u8]) -> Pieces<'_>
    ensures { pieces_left result ≡ lines text.now }
{
    Pieces {
        rest: text,
        separators: Separators::LineFeeds,
    }
}

// The words of a line that are still to come.
#[derive(Clone, Copy)]
pub struct Cursor<'a> {
    pieces: Pieces<'a>,
}

impl<'a> Cursor<'a> {
    pub fn new(line: &'a [u8], separators: Separators) -> Cursor<'a>
        ensures { left result ≡ words separators line.now }
    {
        Cursor {
            pieces: Pieces {
                rest: line,
                separators,
            },
        }
    }

    // Whether no word is left.
    pub fn is_ended(mut self) -> bool
        ensures { result ≡ no_word (left self.entry) }
    {
        self.next().is_none()
    }
}

impl<'a> Iterator for Cursor<'a> {
    type Item = &'a [u8];

    ghost next_gives = { YieldsFirstRef left };

    ghost remaining = { item_count left };

    // The next word, which is then behind the cursor.
    fn next(&mut self) -> Option<&'a [u8]> {
        self.pieces.next_word()
    }
}

// What one or more decimal digits are worth, or 65,536 where that is more than 65,535.
pub fn decimal(word: &[u8]) -> Option<u32>
    ensures value { result ≡ decimal_of word.now }
    ensures bound { IfSome result (λ n. n ≤ 65536) }
{
    if word.is_empty() {
        return None;
    }
    let mut n = 0;
    for &byte in word {
        if !byte.is_ascii_digit() {
            return None;
        }
        // It saturates, as every limit lies below.
        n = (n * 10 + u32::from(byte - b'0')).min(65536);
    }
    Some(n)
}
