//! Where a reader stands in an item, and how one byte moves it on.
ghost use Rattle.std.specs.Prelude.{◌≡◌, ◌≤◌, ◌==◌, if◌then◌else◌, min};
ghost use Rattle.resp_text.specs.Residual.{IsSoundScan, IsAtByte, StepMeans, StepReads, step_if, digit_behind, number_step, step_of, PassesOver, LeadsOn, ReadsOn, OutcomeMeans};

use crate::fault::ProtocolKind;

/// The greatest number of words of a request.
pub(crate) const MOST_WORDS: u32 = 1024;
/// The greatest length of a word, in bytes.
pub(crate) const MOST_LENGTH: u32 = 1_048_576;
/// The greatest length of all words of a request together, in bytes.
pub(crate) const MOST_BYTES: u32 = 2_097_152;

/// Between which two bytes of an item a reader stands.
#[derive(Clone, Copy, Debug, PartialEq, Eq)]
pub(crate) enum Part {
    /// Before an item.
    Start,
    /// Behind the `*`.
    Star,
    /// Behind `*0`.
    Zero,
    /// Behind `*-`.
    Minus,
    /// Behind `*-1`.
    MinusOne,
    /// Before the line feed of an item that is skipped.
    SkipEnd,
    /// Behind digits of the number of words.
    Count(u32),
    /// Before the line feed behind the number of words.
    CountEnd(u32),
    /// Before a word.
    Dollar,
    /// Behind a `$`.
    Sign,
    /// Behind digits of a length.
    Length(u32),
    /// Before the line feed behind a length.
    LengthEnd(u32),
    /// Among the bytes of a word, of which so many are still to come.
    Body(u32),
    /// Before the line feed behind a word's bytes.
    Ending,
}

/// Where a reader stands in an item.
#[derive(Clone, Copy, Debug, PartialEq, Eq)]
pub(crate) struct Scan {
    pub(crate) part: Part,
    /// How many words are still to begin, with the one whose first line is being read.
    pub(crate) words: u32,
    /// How many bytes these words may have together.
    pub(crate) room: u32,
}

/// What one byte does.
#[derive(Clone, Copy, Debug, PartialEq, Eq)]
pub(crate) enum Step {
    /// The item goes on.
    Go(Scan),
    /// The item is whole.
    Whole,
    /// With this byte the item is none.
    Break(ProtocolKind),
}

/// A reader behind bytes of a word.
#[derive(Clone, Copy, Debug, PartialEq, Eq)]
pub(crate) struct Run {
    pub(crate) scan: Scan,
    /// How many bytes were passed over.
    pub(crate) taken: usize,
}

/// What a scan of some bytes came to.
#[derive(Clone, Copy, Debug, PartialEq, Eq)]
pub(crate) enum Outcome {
    /// The bytes end within the item.
    Open(Scan),
    /// The item ends behind so many bytes.
    End(usize),
    /// The byte at this place breaks the item.
    Broken {
        at: usize,
        scan: Scan,
        kind: ProtocolKind,
    },
}

impl Scan {
    /// Before the first byte of an item.
    pub(crate) const START: Scan = Scan {
        part: Part::Start,
        words: 0,
        room: 0,
    };

    /// The step of a byte, where no bytes of a word are due.
    pub(crate) fn step(self, byte: u8) -> Step
        requires sound { IsSoundScan self }
        requires at_byte { IsAtByte self.part }
        ensures means { StepMeans self byte result }
        ensures reads { StepReads self byte result }
    {
        self.step_by(byte)
    }

    /// Passes over bytes of a word, as many as are there.
    fn pass_over(self, available: usize) -> Run
        requires { IsSoundScan self }
        ensures { PassesOver self available result }
    {
        let Part::Body(left) = self.part else {
            return Run {
                scan: self,
                taken: 0,
            };
        };
        let taken = available.min(left as usize);
        let part = Part::Body(left - taken as u32);
        Run {
            scan: Scan { part, ..self },
            taken,
        }
    }

    fn step_by(self, byte: u8) -> Step
        requires { IsSoundScan self }
        ensures { result ≡ step_of self self.part byte }
    {
        match self.part {
            Part::Start => self.step_if(byte, b'*', Part::Star, ProtocolKind::Start),
            Part::Star => self.count_or_skip(byte),
            Part::Zero | Part::MinusOne => {
                self.step_if(byte, b'\r', Part::SkipEnd, ProtocolKind::Count)
            }
            Part::Minus => self.step_if(byte, b'1', Part::MinusOne, ProtocolKind::Count),
            Part::SkipEnd => due(byte, b'\n', Step::Whole, ProtocolKind::Count),
            Part::Count(n) => self.more_of_count(n, byte),
            Part::CountEnd(n) => {
                let first = Scan {
                    part: Part::Dollar,
                    words: n,
                    room: MOST_BYTES,
                };
                due(byte, b'\n', Step::Go(first), ProtocolKind::Count)
            }
            Part::Dollar => self.step_if(byte, b'$', Part::Sign, ProtocolKind::Dollar),
            Part::Sign => self.length_digit(0, byte),
            Part::Length(n) => self.more_of_length(n, byte),
            Part::LengthEnd(n) => {
                let body = Scan {
                    part: Part::Body(n),
                    words: self.words - 1,
                    room: self.room - n,
                };
                due(byte, b'\n', Step::Go(body), ProtocolKind::Length)
            }
            Part::Body(_) => self.step_if(byte, b'\r', Part::Ending, ProtocolKind::Ending),
            Part::Ending => due(byte, b'\n', self.behind_word(), ProtocolKind::Ending),
        }
    }

    /// One step on to a part, where the byte is the one that is due.
    fn step_if(self, byte: u8, expected: u8, part: Part, kind: ProtocolKind) -> Step
        ensures { result ≡ step_if byte expected (Step.Go (record self { part = part })) kind }
    {
        due(byte, expected, Step::Go(Scan { part, ..self }), kind)
    }

    /// Behind the `*`: the first digit of a count, or an item that is skipped.
    fn count_or_skip(self, byte: u8) -> Step
        ensures { result ≡ step_of self Part.Star byte }
    {
        if byte == b'0' {
            return Step::Go(Scan {
                part: Part::Zero,
                ..self
            });
        }
        if byte == b'-' {
            return Step::Go(Scan {
                part: Part::Minus,
                ..self
            });
        }
        self.count_digit(0, byte)
    }

    /// Behind digits of a count.
    fn more_of_count(self, n: u32, byte: u8) -> Step
        requires { n ≤ 1024 }
        ensures { result ≡ step_of self (Part.Count n) byte }
    {
        if byte == b'\r' {
            return Step::Go(Scan {
                part: Part::CountEnd(n),
                ..self
            });
        }
        self.count_digit(n, byte)
    }

    fn count_digit(self, high: u32, byte: u8) -> Step
        requires { high ≤ 1048576 }
        ensures { result
            ≡ number_step self (digit_behind high byte 1024) Part.Count ProtocolKind.Count }
    {
        match digit_behind(high, byte, MOST_WORDS) {
            Some(n) => Step::Go(Scan {
                part: Part::Count(n),
                ..self
            }),
            None => Step::Break(ProtocolKind::Count),
        }
    }

    /// Behind digits of a length. No digit stands behind a leading zero.
    fn more_of_length(self, n: u32, byte: u8) -> Step
        requires { n ≤ 1048576 }
        ensures { result ≡ step_of self (Part.Length n) byte }
    {
        if byte == b'\r' {
            return Step::Go(Scan {
                part: Part::LengthEnd(n),
                ..self
            });
        }
        if n == 0 {
            return Step::Break(ProtocolKind::Length);
        }
        self.length_digit(n, byte)
    }

    fn length_digit(self, high: u32, byte: u8) -> Step
        requires { high ≤ 1048576 }
        ensures { result ≡ number_step self (digit_behind high byte (min 1048576 self.room))
            Part.Length ProtocolKind.Length }
    {
        match digit_behind(high, byte, MOST_LENGTH.min(self.room)) {
            Some(n) => Step::Go(Scan {
                part: Part::Length(n),
                ..self
            }),
            None => Step::Break(ProtocolKind::Length),
        }
    }

    /// Behind a word: the next one, or the end of the request.
    fn behind_word(self) -> Step
        ensures { result ≡ (if self.words == 0 then Step.Whole
            else Step.Go (record self { part = Part.Dollar })) }
    {
        if self.words == 0 {
            return Step::Whole;
        }
        Step::Go(Scan {
            part: Part::Dollar,
            ..self
        })
    }
}

/// A step that only one byte makes.
fn due(byte: u8, expected: u8, step: Step, kind: ProtocolKind) -> Step
    ensures { result ≡ step_if byte expected step kind }
{
    if byte == expected {
        step
    } else {
        Step::Break(kind)
    }
}

/// A number with one more digit, where the byte is a digit and the number stays within the limit.
pub(crate) fn digit_behind(high: u32, byte: u8, most: u32) -> Option<u32>
    requires { high ≤ 1048576 }
    ensures { result ≡ digit_behind high byte most }
{
    if !byte.is_ascii_digit() {
        return None;
    }
    let n = high * 10 + u32::from(byte - b'0');
    if n <= most { Some(n) } else { None }
}

/// Reads on in an item, up to its end.
pub(crate) fn scan_item(scan: Scan, bytes: &[u8]) -> Outcome
    requires { IsSoundScan scan }
    ensures { OutcomeMeans scan bytes.now result }
{
    let mut scan = scan;
    let mut at = 0;
    while at < bytes.len() {
        let run = scan.pass_over(bytes.len() - at);
        scan = run.scan;
        at += run.taken;
        if at == bytes.len() {
            return Outcome::Open(scan);
        }
        match scan.step(bytes[at]) {
            Step::Go(next) => scan = next,
            Step::Whole => return Outcome::End(at + 1),
            Step::Break(kind) => return Outcome::Broken { at, scan, kind },
        }
        at += 1;
    }
    Outcome::Open(scan)
}
