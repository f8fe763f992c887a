// The numbers and symbols in a record's body.
ghost use Rattle.std.specs.Prelude.{◌≡◌};
ghost use Rattle.std.specs.List.{slice_get};
ghost use Rattle.records.specs.Meaning.{words_in, symbol_of, symbols_in};

use crate::records::word;
use grammar::Symbol;

// Number `index` of a body, counted from 0.
pub fn number_at(body: &[u8], index: usize) -> Option<u32>
    ensures { result ≡ slice_get (words_in body.now) index }
{
    let (words, _) = body.as_chunks();
    words.get(index).map(|&pair| word(pair))
}

// A symbol by its two numbers: 0 and the token, or the argument and the constituent.
fn symbol_of(argument: u32, number: u32) -> Symbol
    ensures { result ≡ symbol_of argument number }
{
    if argument == 0 {
        Symbol::Token(number)
    } else {
        Symbol::Argument(argument, number)
    }
}

// Symbol `index` of a constituent, counted from 0.
pub fn symbol_at(body: &[u8], index: usize) -> Option<Symbol>
    ensures { result ≡ slice_get (symbols_in (words_in body.now)) index }
{
    let (symbols, _) = body.as_chunks::<4>();
    symbols
        .get(index)
        .map(|&[a, b, c, d]| symbol_of(word([a, b]), word([c, d])))
}
