// Words of a line as tokens, which hold parts of the text.
ghost use Rattle.std.specs.Prelude.{◌≡◌, ◌≤◌, pos, IfSome};
ghost use Rattle.std.specs.Option.{option_map};
ghost use Rattle.scan.specs.Numbers.{decimal_of};
ghost use Rattle.text.specs.Words.{plain, after, name, argument, and_then};
ghost use Rattle.reader.specs.declared.token.Token.TheVariants.{Number};
ghost use Rattle.reader.specs.Tokens.{seen, told, token_of, Bounded};

use scan::decimal;

// A word in an operand's place. Numbers beyond 65,536 are told as 65,536, with their sign.
#[derive(Clone, Copy)]
pub enum Token<'a> {
    // without its `%`
    Name(&'a [u8]),
    Number(i32),
    Code(u32),
    // any other word
    Word(&'a [u8]),
}

// What stands where there is no operand.
impl<'a> Default for Token<'a> {
    ghost is_default = { λ t. t ≡ Number (pos 0) };

    fn default() -> Token<'a> {
        Token::Number(0)
    }
}

// Whether a word is a name without its sign: 1 to 15 letters or digits.
pub fn is_plain_name(word: &[u8]) -> bool
    ensures { result ≡ plain word.now }
{
    (1..=15).contains(&word.len()) && word.iter().all(u8::is_ascii_alphanumeric)
}

// What follows a sign.
fn strip_sign(word: &[u8], sign: u8) -> Option<&[u8]>
    ensures { option_map (λ x. x.now) result ≡ after sign word.now }
{
    word.strip_prefix(&[sign])
}

// The name that follows `%`.
pub fn name_of(word: &[u8]) -> Option<&[u8]>
    ensures { option_map (λ x. x.now) result ≡ name word.now }
{
    strip_sign(word, b'%').filter(|name| is_plain_name(name))
}

// What the decimal digits that follow a sign are worth.
fn signed_decimal(word: &[u8], sign: u8) -> Option<u32>
    ensures value { result ≡ and_then (after sign word.now) decimal_of }
    ensures bound { IfSome result (λ n. n ≤ 65536) }
{
    decimal(strip_sign(word, sign)?)
}

impl<'a> Token<'a> {
    pub fn of(word: &'a [u8]) -> Token<'a>
        ensures value { seen result ≡ token_of (argument word.now) word.now }
        ensures bound { Bounded result }
    {
        if let Some(name) = name_of(word) {
            return Token::Name(name);
        }
        if let Some(n) = decimal(word) {
            return Token::Number(n as i32);
        }
        if let Some(n) = signed_decimal(word, b'-') {
            return Token::Number(-(n as i32));
        }
        match signed_decimal(word, b'#') {
            Some(code) => Token::Code(code),
            None => Token::Word(word),
        }
    }

    // The operand that a word is, if it is one.
    pub fn operand_of(word: &'a [u8]) -> Option<Token<'a>>
        ensures value { option_map seen result ≡ option_map told (argument word.now) }
        ensures bound { IfSome result Bounded }
    {
        match Token::of(word) {
            Token::Word(_) => None,
            operand => Some(operand),
        }
    }
}
