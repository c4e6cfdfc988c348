//! A symbol of a right side.
ghost use Rattle.std.specs.Prelude.{◌≡◌};
ghost use Rattle.block.specs.Symbols.{symbol_of};

/// A rule or a token, by number; in a block rule r is 2r, and token t is 2t + 1.
#[derive(Clone, Copy, Debug, PartialEq, Eq)]
pub enum Symbol {
    Rule(usize),
    Token(usize),
}

impl From<u32> for Symbol {
    ghost from_gives = { λ word symbol. symbol ≡ symbol_of word };

    fn from(word: u32) -> Self {
        let number = word as usize / 2;
        if word % 2 == 0 {
            Symbol::Rule(number)
        } else {
            Symbol::Token(number)
        }
    }
}
