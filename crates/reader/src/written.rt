// An instruction as a line writes it.
use crate::token::Token;
use vocabulary::marks::Marks;
use vocabulary::operation::Operation;

// Places that the operation does not use hold the number 0.
#[derive(Clone, Copy)]
pub struct Written<'a> {
    pub name: &'a [u8],
    pub operation: Operation,
    // none where a mark may not stand on the operation, or is repeated
    pub marks: Option<Marks>,
    pub first: Token<'a>,
    pub second: Token<'a>,
    pub third: Token<'a>,
}
