// The form of a line.
ghost use Rattle.std.specs.Prelude.{◌≡◌, length, map, slice_index_or, is_some, codes, pos, IfSome};
ghost use Rattle.std.specs.Option.{option_map};
ghost use Rattle.copy_vec.specs.Items.{items};
ghost use Rattle.vocabulary.specs.Names.{operand_count};
ghost use Rattle.scan.specs.declared.Separators.TheVariants.{SpacesAndCommas};
ghost use Rattle.scan.specs.Pieces.{left, words as words_by};
ghost use Rattle.text.specs.Words.{each, name as name_in};
ghost use Rattle.text.specs.Forms.{lone, arguments, leading_marks, behind_marks, written, form, form_of, opens_rule, opens_in, opens_ret, opens_instruction};
ghost use Rattle.text.specs.Faults.{skipped};
ghost use Rattle.reader.specs.Marks.{next_mark, after_mark, marks_of};
ghost use Rattle.reader.specs.declared.token.Token.TheVariants.{Number};
ghost use Rattle.reader.specs.Tokens.{Formed, seen, told};

use crate::facts::permitted_marks;
use crate::token::{Token, is_plain_name, name_of};
use crate::written::Written;
use copy_vec::CopyVec;
use scan::{Cursor, Separators};
use vocabulary::marks::Marks;
use vocabulary::operation::Operation;

// What a line is, by its words. `In` holds the names that are still to be read.
#[derive(Clone, Copy)]
pub enum Form<'a> {
    Rule,
    Arrow,
    End,
    In(Cursor<'a>),
    Ret(&'a [u8]),
    Instruction(Written<'a>),
}

// Whether a line has no word, or begins with `;`.
pub fn is_skipped(line: &[u8]) -> bool
    ensures { result ≡ skipped line.now }
{
    Cursor::new(line, Separators::SpacesAndCommas).is_ended() || line.first() == Some(&b';')
}

// The word, where it is the only one.
fn only_word<'a>(mut words: Cursor<'a>) -> Option<&'a [u8]>
    ensures { option_map (λ x. x.now) result ≡ lone (left words.entry) }
{
    let word = words.next()?;
    words.is_ended().then_some(word)
}

// Whether every word is a name.
fn are_names(mut words: Cursor) -> bool
    ensures { result ≡ is_some (each name_in (left words.entry)) }
{
    words.all(|word| name_of(word).is_some())
}

// `rule NAME`
fn rule_form<'a>(words: Cursor<'a>) -> Option<Form<'a>>
    ensures { Formed result (form_of opens_rule (codes "rule") (left words.entry)) }
{
    is_plain_name(only_word(words)?).then_some(Form::Rule)
}

// `in NAME*`
fn in_form<'a>(words: Cursor<'a>) -> Option<Form<'a>>
    ensures { Formed result (form_of opens_in (codes "in") (left words.entry)) }
{
    are_names(words).then_some(Form::In(words))
}

// `ret NAME`
fn ret_form<'a>(words: Cursor<'a>) -> Option<Form<'a>>
    ensures { Formed result (form_of opens_ret (codes "ret") (left words.entry)) }
{
    let name = name_of(only_word(words)?)?;
    Some(Form::Ret(name))
}

// The mark that comes next, which is then behind the cursor. Any other word stays.
fn next_mark(words: &mut Cursor) -> Option<Marks>
    ensures value { result ≡ next_mark (left words.old) }
    ensures after { left words.new ≡ after_mark (left words.old) }
{
    let mut ahead = *words;
    let mark = Marks::named(ahead.next()?)?;
    *words = ahead;
    Some(mark)
}

// The marks that come next, or none where one may not stand on the operation or is repeated.
fn read_marks(op: Operation, words: &mut Cursor) -> Option<Marks>
    ensures value { result ≡ marks_of op (leading_marks (left words.old)) }
    ensures after { left words.new ≡ behind_marks (left words.old) }
{
    let permitted = permitted_marks(op);
    let mut marks = Some(Marks::NONE);
    while let Some(mark) = next_mark(words) {
        marks = marks
            .filter(|marks| permitted.meets(mark) && !marks.meets(mark))
            .map(|marks| marks.union(mark));
    }
    marks
}

// The operands, where every word is one and they are as many as the operation takes.
fn read_operands<'a>(op: Operation, words: Cursor<'a>) -> Option<CopyVec<Token<'a>, 3>>
    ensures value { option_map (λ t. map seen (items t)) result ≡ option_map (map told) (arguments op (left words.entry)) }
    ensures taken { IfSome result (λ t. length (items t) ≡ operand_count op) }
{
    let mut operands = CopyVec::new();
    for word in words {
        operands.try_push(Token::operand_of(word)?).ok()?;
    }
    (operands.len() == op.operand_count() as usize).then_some(operands)
}

// The operand in a place, or the number 0 in one that is not used.
fn operand_at<'a>(operands: &[Token<'a>], place: usize) -> Token<'a>
    ensures { result ≡ slice_index_or operands.now place (Number (pos 0)) }
{
    operands.get(place).copied().unwrap_or_default()
}

// `MARK* OPERAND*` after `%NAME = OP`
fn read_written<'a>(name: &'a [u8], operation: Operation, mut words: Cursor<'a>) -> Option<Form<'a>>
    ensures { Formed result (written name.now operation (left words.entry)) }
{
    let marks = read_marks(operation, &mut words);
    let operands = read_operands(operation, words)?;
    Some(Form::Instruction(Written {
        name,
        operation,
        marks,
        first: operand_at(&operands, 0),
        second: operand_at(&operands, 1),
        third: operand_at(&operands, 2),
    }))
}

// `%NAME = OP MARK* OPERAND*`, of which the first word is given
fn instruction_form<'a>(first: &'a [u8], mut words: Cursor<'a>) -> Option<Form<'a>>
    ensures { Formed result (form_of opens_instruction first.now (left words.entry)) }
{
    let equals = words.next()?;
    let word = words.next()?;
    if equals != b"=".as_slice() {
        return None;
    }
    let name = name_of(first)?;
    let operation = Operation::named(word)?;
    read_written(name, operation, words)
}

// The form of a line, if it has one: its first word tells which. What may follow differs by the word, so each has its own case.
pub fn read_form<'a>(line: &'a [u8]) -> Option<Form<'a>>
    ensures { Formed result (form (words_by SpacesAndCommas line.now)) }
{
    let mut words = Cursor::new(line, Separators::SpacesAndCommas);
    let first = words.next()?;
    if first == b"rule".as_slice() {
        return rule_form(words);
    }
    if first == b"=>".as_slice() {
        return words.is_ended().then_some(Form::Arrow);
    }
    if first == b"end".as_slice() {
        return words.is_ended().then_some(Form::End);
    }
    if first == b"in".as_slice() {
        return in_form(words);
    }
    if first == b"ret".as_slice() {
        return ret_form(words);
    }
    instruction_form(first, words)
}
