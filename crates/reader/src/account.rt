// The account of a grammar: what stands in its source, in lines of text. A source answers by number, and each line may fail to be printed:
// so these are loops over numbers, with `?`.
ghost use Rattle.std.specs.Prelude.{ℕ};

use grammar::{Place, Source};
use packed::Packed;
use records::Kind;
use std::{fmt, io};

// A category, which is written as its number behind a `C`.
#[derive(Clone, Copy)]
struct Category(u32);

impl fmt::Display for Category {
    fn fmt<W: fmt::Write>(&self, f: &mut fmt::Formatter<W>) -> fmt::Result {
        write!(f, "C{}", self.0)
    }
}

// How many constituents, symbols and arguments were printed.
#[derive(Clone, Copy, Default)]
pub(crate) struct Totals {
    constituents: u64,
    symbols: u64,
    arguments: u64,
}

// The size of a file and its records by kind.
pub(crate) fn file_lines(rt: &impl Print, file: &Packed<'_>) -> io::Result<()> {
    let size = file.size();
    println!(rt; "file: {size} bytes")?;
    let heads = file.count_of(Kind::Head);
    let categories = file.count_of(Kind::Category);
    let functions = file.count_of(Kind::Function);
    let constituents = file.count_of(Kind::Constituent);
    let filled = file.count_of(Kind::Filled);
    let empty = file.count_of(Kind::Empty);
    println!(rt;
        "records: head {heads}, category {categories}, function {functions}, constituent {constituents}, filled place {filled}, empty place {empty}"
    )
}

fn category_lines<S: Source>(rt: &impl Print, source: &S) -> io::Result<()> {
    let categories = source.categories();
    println!(rt; "categories: {categories}")?;
    for c in 0..categories {
        if let Some(dimension) = source.dimension(c) {
            println!(rt; "  C{c}: dimension {dimension}")?;
        }
    }
    Ok(())
}

// The things at 1, 2 and on until there is none, with `between` between two of them, and how many they are.
fn listed<T: fmt::Display + Drop, F: Fn(u32) -> Option<T>>(
    rt: &impl Print,
    between: &str,
    thing: F,
) -> io::Result<u64>
    requires { F.IsAlwaysCallable thing }
{
    // `n` beside: each turn may fail to print, and `?` leaves the chain.
    let mut n = 0;
    for (i, thing) in (1..=u32::MAX).map_while(|i| Some((i, thing(i)?))) {
        if i > 1 {
            print!(rt; "{between}")?;
        }
        print!(rt; "{thing}")?;
        n = u64::from(i);
    }
    Ok(n)
}

fn function_lines<S: Source>(rt: &impl Print, source: &S, totals: &mut Totals) -> io::Result<()> {
    let functions = source.functions();
    println!(rt; "functions: {functions}")?;
    for f in 0..functions {
        // A function below the count has both: the 0 is never printed.
        let arity = source.arity(f).unwrap_or(0);
        let constituents = source.constituents(f).unwrap_or(0);
        print!(rt; "  F{f}: arity {arity},")?;
        for l in 1..=constituents {
            print!(rt; " (")?;
            let symbols = listed(rt, " ", |i| source.symbol(f, l, i))?;
            print!(rt; ")")?;
            totals.symbols = totals.symbols.saturating_add(symbols);
        }
        totals.constituents = totals.constituents.saturating_add(u64::from(constituents));
        println!(rt; "")?;
    }
    Ok(())
}

fn place_lines<S: Source>(rt: &impl Print, source: &S, totals: &mut Totals) -> io::Result<()> {
    let places = source.places();
    println!(rt; "places: {places}")?;
    for p in 0..places {
        // A match: each case prints, and may fail to.
        match source.place(p) {
            None => println!(rt; "  {p}: empty")?,
            Some(Place { result, function }) => {
                print!(rt; "  {p}: C{result} -> F{function}[")?;
                let n = listed(rt, ", ", |i| source.argument(p, i).map(Category))?;
                totals.arguments = totals.arguments.saturating_add(n);
                println!(rt; "]")?;
            }
        }
    }
    Ok(())
}

// All that a source answers, line by line, and the totals.
pub(crate) fn grammar_lines<S: Source>(rt: &impl Print, source: &S) -> io::Result<()> {
    let tokens = source.tokens();
    let start = source.start();
    println!(rt; "tokens: {tokens}")?;
    println!(rt; "start: C{start}")?;
    let mut totals = Totals::default();
    category_lines(rt, source)?;
    function_lines(rt, source, &mut totals)?;
    place_lines(rt, source, &mut totals)?;
    let categories = source.categories();
    let functions = source.functions();
    let places = source.places();
    let Totals {
        constituents,
        symbols,
        arguments,
    } = totals;
    println!(rt;
        "totals: categories {categories}, functions {functions}, constituents {constituents}, symbols {symbols}, places {places}, arguments {arguments}"
    )
}
