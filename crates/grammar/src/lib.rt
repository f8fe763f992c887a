// What a grammar is made of, and the questions that every source of grammars answers.
#![tactic(auto)]

ghost use Rattle.std.specs.Prelude.{◌≡◌, length, Some};
ghost use Rattle.grammar.specs.Listed.{symbol_shown, ToldApart};
ghost use Rattle.grammar.specs.Grammar.{Grammar, dimension_at, arity_at, constituent_count, symbol_at, place_at, argument_at};

use std::fmt;

// One symbol of a constituent: a token, or constituent `l` of argument `k`, both counted from 1.
#[derive(Clone, Copy, Debug, PartialEq, Eq)]
pub enum Symbol {
    Token(u32),
    Argument(u32, u32),
}

// What a filled place holds, but for its arguments: the result category and the function of its production.
#[derive(Clone, Copy, Debug, PartialEq, Eq)]
pub struct Place {
    pub result: u32,
    pub function: u32,
}

// A token is written as its number, a pair as `<k;l>`.
impl fmt::Display for Symbol {
    ghost output = { λ s. Some (symbol_shown s) };

    fn fmt<W: fmt::Write>(&self, f: &mut fmt::Formatter<W>) -> fmt::Result {
        match *self {
            Symbol::Token(t) => write!(f, "{t}"),
            Symbol::Argument(k, l) => write!(f, "<{k};{l}>"),
        }
    }
}

// A symbol, and what a place answers, are told apart by the lists that stand for them: the case's number, then its
// values.
pub fn answers_are_told_apart()
    ensures { ToldApart }
{}

// A source of grammars. Arguments, constituents and symbols count from 1, all else from 0. Each answer is what the
// meaning has at those numbers, and is absent just where it has nothing; asking alters nothing.
pub trait Source {
    // The grammar that the source means.
    ghost meaning: { Self → Grammar };

    // How many tokens there are: each number below this is one.
    fn tokens(&self) -> u32
        ensures { result ≡ (meaning self.now).tokens };

    // The start category.
    fn start(&self) -> u32
        ensures { result ≡ (meaning self.now).start };

    fn categories(&self) -> u32
        ensures { result ≡ length (meaning self.now).dimensions };

    fn functions(&self) -> u32
        ensures { result ≡ length (meaning self.now).functions };

    fn places(&self) -> u32
        ensures { result ≡ length (meaning self.now).places };

    // The dimension of a category.
    fn dimension(&self, category: u32) -> Option<u32>
        ensures { result ≡ dimension_at (meaning self.now) category };

    // How many arguments a function takes.
    fn arity(&self, function: u32) -> Option<u32>
        ensures { result ≡ arity_at (meaning self.now) function };

    // How many constituents a function has.
    fn constituents(&self, function: u32) -> Option<u32>
        ensures { result ≡ constituent_count (meaning self.now) function };

    // Symbol `index` of a constituent of a function.
    fn symbol(&self, function: u32, constituent: u32, index: u32) -> Option<Symbol>
        ensures { result ≡ symbol_at (meaning self.now) function constituent index };

    // The result and the function of a place, if it is filled.
    fn place(&self, place: u32) -> Option<Place>
        ensures { result ≡ place_at (meaning self.now) place };

    // Argument `index` of a place.
    fn argument(&self, place: u32, index: u32) -> Option<u32>
        ensures { result ≡ argument_at (meaning self.now) place index };
}

// A lent source is a source of the same meaning. (What only passes a question on is an answer that the trait asks for.)
impl<S: Source> Source for &S {
    ghost meaning = { λ s. S.Source.meaning s.now };

    fn tokens(&self) -> u32 {
        (**self).tokens()
    }

    fn start(&self) -> u32 {
        (**self).start()
    }

    fn categories(&self) -> u32 {
        (**self).categories()
    }

    fn functions(&self) -> u32 {
        (**self).functions()
    }

    fn places(&self) -> u32 {
        (**self).places()
    }

    fn dimension(&self, category: u32) -> Option<u32> {
        (**self).dimension(category)
    }

    fn arity(&self, function: u32) -> Option<u32> {
        (**self).arity(function)
    }

    fn constituents(&self, function: u32) -> Option<u32> {
        (**self).constituents(function)
    }

    fn symbol(&self, function: u32, constituent: u32, index: u32) -> Option<Symbol> {
        (**self).symbol(function, constituent, index)
    }

    fn place(&self, place: u32) -> Option<Place> {
        (**self).place(place)
    }

    fn argument(&self, place: u32, index: u32) -> Option<u32> {
        (**self).argument(place, index)
    }
}
