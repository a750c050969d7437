// Domains as `bench` describes them.
ghost use Rattle.std.specs.Prelude.{◌≡◌};
ghost use Rattle.scan.specs.Pieces.{left};
ghost use Rattle.script.specs.Commands.{layer_named, layer_at, after_layer, bench_words, bench_house, bench_command};

use crate::command::number::read_number;
use pile::{Blueprint, Layer};
use scan::Cursor;
use vocabulary::marks::Marks;

// A layer by its name and its marks.
fn read_layer(name: &[u8], marks: &[u8]) -> Option<Layer>
    ensures { result ≡ layer_named name.now marks.now }
{
    let bits = u8::try_from(read_number(marks)?).ok()?;
    let marks = Marks::from_bits(bits);
    if name == b"trap".as_slice() {
        return Some(Layer::Trap(marks));
    }
    if name == b"poison".as_slice() {
        return Some(Layer::Poison(marks));
    }
    None
}

// The next layer, or none where the words have ended.
fn next_layer(words: &mut Cursor) -> Option<Option<Layer>>
    ensures value { result ≡ layer_at (left words.old) }
    ensures after { left words.new ≡ after_layer (left words.old) }
{
    let Some(name) = words.next() else {
        return Some(None);
    };
    let layer = read_layer(name, words.next()?)?;
    Some(Some(layer))
}

// A bench over words, with the layers that the words after the width name.
fn bench_words(mut words: Cursor) -> Option<Blueprint>
    ensures { result ≡ bench_words (left words.entry) }
{
    let width = read_number(words.next()?)?;
    let layers = [
        next_layer(&mut words)?,
        next_layer(&mut words)?,
        next_layer(&mut words)?,
    ];
    words.is_ended().then_some(Blueprint { width, layers })
}

// A bench over the house pile: the poison layer of all marks over words.
fn bench_house(mut words: Cursor) -> Option<Blueprint>
    ensures { result ≡ bench_house (left words.entry) }
{
    let width = read_number(words.next()?)?;
    words.is_ended().then_some(Blueprint {
        width,
        layers: [Some(Layer::Poison(Marks::all())), None, None],
    })
}

pub fn bench_command(mut words: Cursor) -> Option<Blueprint>
    ensures { result ≡ bench_command (left words.entry) }
{
    let kind = words.next()?;
    if kind == b"words".as_slice() {
        return bench_words(words);
    }
    if kind == b"house".as_slice() {
        return bench_house(words);
    }
    None
}
