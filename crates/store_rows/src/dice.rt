//! Numbers that look drawn, the same in each run, and keys and values made of them.
ghost use Rattle.std.specs.Prelude.{◌<◌, ◌≤◌, length};

/// Bytes that keys and values are cut from.
pub const TEXT: usize = 4096;

/// A generator of 64 bits: each state is the one before, multiplied and added to.
#[derive(Debug, Drop)]
pub struct Dice {
    state: u64,
}

impl Dice {
    pub fn new(seed: u64) -> Dice {
        Dice { state: seed }
    }

    /// A number below another.
    pub fn below(&mut self, end: u64) -> u64
        requires { 0 < end }
        ensures { result < end }
    {
        self.state = self
            .state
            .wrapping_mul(6_364_136_223_846_793_005)
            .wrapping_add(1_442_695_040_888_963_407);
        (self.state >> 33) % end
    }

    /// Drawn bytes.
    pub fn text(&mut self) -> [u8; TEXT] {
        let mut text = [0; TEXT];
        for byte in &mut text {
            *byte = self.below(256) as u8;
        }
        text
    }

    /// The key of a number below so many, where there are that many at most.
    pub fn key<'t>(&mut self, text: &'t [u8; TEXT], keys: u64) -> &'t [u8]
        requires some { 0 < keys }
        requires few { keys ≤ 1024 }
        ensures { length result.now ≤ 512 }
    {
        key_of(text, self.below(keys) as usize)
    }

    /// A value: as many are short as are long.
    pub fn value<'t>(&mut self, text: &'t [u8; TEXT]) -> &'t [u8]
        ensures { length result.now ≤ 4096 }
    {
        let from = self.below(1024) as usize;
        let most = most_bytes(self.below(2));
        let length = self.below(most) as usize;
        &text[from..from + length]
    }
}

// Below how many bytes a value has.
fn most_bytes(drawn: u64) -> u64
    ensures some { 0 < result }
    ensures few { result ≤ 2048 }
{
    if drawn == 0 { 24 } else { 2048 }
}

/// The key of a number: a part of the text, of 0 to 292 bytes.
pub fn key_of(text: &[u8; TEXT], number: usize) -> &[u8]
    requires { number < 1024 }
    ensures { length result.now ≤ 512 }
{
    let length = number % 147 * 2;
    &text[number..number + length]
}
