//! What the table of the commands says of one besides its name.
ghost use Rattle.std.specs.Prelude.{◌≡◌};
ghost use Rattle.service_meaning.specs.Shapes.{has_words, shape};

/// Which words behind the name are keys.
#[derive(Clone, Copy, Debug, PartialEq, Eq)]
pub enum Keys {
    None,
    First,
    All,
}

/// What a command wants frames for.
#[derive(Clone, Copy, Debug, PartialEq, Eq)]
pub enum Frames {
    None,
    Pair,
    Fork,
}

/// How many words a command has, which of them are keys, and what it wants frames for.
#[derive(Clone, Copy, Debug, PartialEq, Eq)]
pub struct Shape {
    /// The least number of words, the name counted.
    pub least: usize,
    /// The most number of words; any more may come where none is told.
    pub most: Option<usize>,
    pub keys: Keys,
    pub frames: Frames,
}

impl Shape {
    pub(crate) fn new(least: usize, most: Option<usize>, keys: Keys, frames: Frames) -> Self
        ensures { result ≡ shape least most keys frames }
    {
        Shape {
            least,
            most,
            keys,
            frames,
        }
    }

    /// Whether there may be so many words, the name counted.
    pub fn has_words(self, words: usize) -> bool
        ensures { result ≡ has_words self words }
    {
        self.least <= words
            && match self.most {
                None => true,
                Some(most) => words <= most,
            }
    }
}
