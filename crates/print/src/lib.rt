// Text in a lent buffer: numbers in decimal, and the lines of the tape and of the tree listing.
#![tactic(auto)]

ghost use Rattle.std.specs.Prelude.{◌≡◌, true, false, [], ◌∷◌, ◌<◌};
ghost use Rattle.text.specs.Text.{decimal, say, texts};
ghost use Rattle.text.specs.Tape.{ending};
ghost use Rattle.text.specs.Tape.{line as tape_line};
ghost use Rattle.text.specs.Tree.{line as tree_line};
ghost use Rattle.print.specs.Writing.{blank, followed_by, Room, number_then, pair_then, kind_shown, sign_in, sign_byte};

use things::{Answer, Call, Capability, Kind, ObjectNumber, Outcome};

// How a line of the tree listing ends.
#[derive(Clone, Copy, PartialEq, Eq)]
pub enum Sign {
    Here,
    Before,
    Leaf,
    Lost,
}

impl From<Sign> for u8 {
    ghost from_gives = { λ sign byte. byte ≡ sign_byte sign };

    fn from(sign: Sign) -> Self {
        match sign {
            Sign::Here => b'+',
            Sign::Before => b'=',
            Sign::Leaf => b'-',
            Sign::Lost => b'x',
        }
    }
}

// The number of an object's kind, 0 for an object that is gone.
fn number_shown(kind: Option<Kind>) -> u16
    ensures { result ≡ kind_shown kind }
{
    kind.map_or(0, u16::from)
}

// What is written so far of a text: the first `at` bytes of a buffer. Clauses name the fields, since a model would hide the
// reference, and the buffer's owner would not learn what it holds once the text is done.
#[derive(Drop)]
pub struct Text<'a> {
    out: &'a mut [u8],
    at: usize,
}

impl<'a> Text<'a> {
    // A text of no bytes yet, at the start of a buffer.
    pub fn new(out: &'a mut [u8]) -> Self
        ensures { result ≡ blank out.entry }
    {
        Self { out, at: 0 }
    }

    pub fn len(&self) -> usize
        ensures { result ≡ self.now.at }
    {
        self.at
    }

    fn byte(&mut self, byte: u8)
        requires { Room self.old (byte ∷ []) }
        ensures { self.new ≡ followed_by self.old (byte ∷ []) }
    {
        self.out[self.at] = byte;
        self.at += 1;
    }

    pub fn bytes(&mut self, bytes: &[u8])
        requires { Room self.old bytes.now }
        ensures { self.new ≡ followed_by self.old bytes.now }
    {
        let end = self.at + bytes.len();
        self.out[self.at..end].copy_from_slice(bytes);
        self.at = end;
    }

    // By hand, since `write!` promises what it writes where it succeeds, and not that it does.
    fn decimal(&mut self, n: u64)
        requires { Room self.old (decimal n) }
        ensures { self.new ≡ followed_by self.old (decimal n) }
    {
        let mut digits = [0; 20];
        let count = io::decimal(n, &mut digits);
        self.bytes(&digits[..count]);
    }

    // A number, and the byte after it.
    pub fn number(&mut self, n: u64, after: u8)
        requires { Room self.old (number_then n after) }
        ensures { self.new ≡ followed_by self.old (number_then n after) }
    {
        self.decimal(n);
        self.byte(after);
    }

    // Numbers, each with the byte after it.
    fn numbers(&mut self, numbers: &[(u64, u8)])
        requires { Room self.old (texts pair_then numbers.now) }
        ensures { self.new ≡ followed_by self.old (texts pair_then numbers.now) }
    {
        for &(n, after) in numbers {
            self.number(n, after);
        }
    }

    // The tape: the line of a record, and how it ends.
    pub fn tape_line(&mut self, n: u64, call: Call, answer: Answer)
        requires { Room self.old (tape_line n call answer) }
        ensures { self.new ≡ followed_by self.old (tape_line n call answer) }
    {
        let Outcome { answer, value } = answer.into();
        self.numbers(&[
            (n, b' '),
            (call.caller.into(), b' '),
            (call.number.into(), b' '),
            (answer.into(), b' '),
            (value.into(), b'\n'),
        ]);
    }

    // END and the count of records.
    pub fn end_line(&mut self, n: u64)
        requires { Room self.old (ending n true) }
        ensures { self.new ≡ followed_by self.old (ending n true) }
    {
        self.bytes(b"END ");
        self.number(n, b'\n');
    }

    // STOP after n records, and the number of the next, which is no record.
    pub fn stop_line(&mut self, n: u64)
        requires room { Room self.old (ending n false) }
        requires n_bound { n < 65536 }
        ensures { self.new ≡ followed_by self.old (ending n false) }
    {
        self.bytes(b"STOP ");
        self.number(n + 1, b'\n');
    }

    pub fn long_line(&mut self)
        requires { Room self.old (say "LONG\n") }
        ensures { self.new ≡ followed_by self.old (say "LONG\n") }
    {
        self.bytes(b"LONG\n");
    }

    // The tree listing: a capability's line. An object that is gone has no kind.
    pub fn shown_line(&mut self, depth: u64, c: Capability, kind: Option<Kind>, sign: Sign)
        requires { Room self.old (tree_line depth c (kind_shown kind) (sign_in sign)) }
        ensures { self.new ≡ followed_by self.old (tree_line depth c (kind_shown kind) (sign_in sign)) }
    {
        self.tree_line(depth, c, number_shown(kind), sign);
    }

    // The same of a kind by its number, whatever it is.
    pub fn tree_line(&mut self, depth: u64, c: Capability, kind: u16, sign: Sign)
        requires { Room self.old (tree_line depth c kind (sign_in sign)) }
        ensures { self.new ≡ followed_by self.old (tree_line depth c kind (sign_in sign)) }
    {
        let Capability { object, rights } = c;
        let ObjectNumber(maker, serial) = object;
        self.numbers(&[
            (depth, b' '),
            (maker.into(), b'.'),
            (serial.into(), b' '),
            (kind.into(), b' '),
            (rights.into(), b' '),
        ]);
        self.bytes(&[sign.into(), b'\n']);
    }
}
