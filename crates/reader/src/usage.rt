// How the program is called.
pub(crate) const TEXT: &str = "usage:
  reader grammar FILE [--strike P].. [--word C:T]..
      print the account of a packed grammar, or why its bytes spell none;
      --strike empties place P, --word adds a word, token T of category C
  reader notes FILE NOTES [--depth H] [--strike P].. [--word C:T]..
      read the notes of file NOTES, one to a line as token numbers, with a
      grammar: print each, and a table; readings count to depth H, else 32
  reader transcript FILE [--strike P].. [--word C:T]..
      play the calls on standard input, one to a line, and print each with
      its answer: open AREA; feed T, next ROOM, verdict, linearize ROOM P..;
      close, weigh yesno|counts|costs DEPTH [WEIGHT..]; end
  reader help
      print this";
