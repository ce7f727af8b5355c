// A run of a tape from fresh tables.
#![tactic(auto)]

ghost use Rattle.std.specs.Prelude.{◌≡◌, ◌≤◌, length};
ghost use Rattle.rules.specs.Machine.{fresh};
ghost use Rattle.rules.specs.Step.{run};
ghost use Rattle.tables.specs.Layout.{machine};
ghost use Rattle.text.specs.Text.{say};
ghost use Rattle.text.specs.Tape.{longest, tape, told, tape_text};
ghost use Rattle.text.specs.Tree.{tree_text};
ghost use Rattle.access.specs.Lent.{Lent};
ghost use Rattle.print.specs.Writing.{Wrote};
ghost use Rattle.run.specs.Obeyed.{Obeyed};

use access::sizes::{Numbers, TABLES};
use print::Text;
use records::Records;
use std::convert::AsSlice;
use std::io::{self, Input, Print, Write};
use things::{Answer, Call};

// The longest text of a tape: a line for each record, and how it ends.
const LINE: usize = 22;

const ENDING: usize = 10;

pub const LINES: usize = records::RECORDS * LINE + ENDING;

// One call, after which the tables are well formed again, so that nothing is tested between records.
fn obey(t: &mut Numbers, x: Call) -> Answer
    requires { Lent t.old }
    ensures { Obeyed t.old x result t.new }
{
    calls::step::step_formed(t, x)
}

#[tactic(auto, using(crate::proofs::Obeying::fresh_lent, crate::proofs::Obeying::fresh_machine))]
fn make_fresh(t: &mut Numbers)
    ensures { Lent t.new × (machine t.new ≡ fresh) }
{
    skawennel::fill(t);
}

// The lines of a tape that is not too long, and how it ends; the tables are fresh. The records are counted by hand, since the
// ending needs the count after the loop. It answers a count, as what follows does: `Wrote out.old out.new` can't be said of a buffer
// that is lent on into the result.
#[tactic(auto, using(records::proofs::Telling::telling_few, records::proofs::Telling::telling_room, records::proofs::Telling::end_room, records::proofs::Telling::stop_room))]
pub fn tell(bytes: &[u8], t: &mut Numbers, out: &mut [u8; LINES]) -> usize
    requires { Lent t.old × (machine t.old ≡ fresh) × (length bytes.now ≤ longest) }
    ensures { Wrote out.old out.new 0 result (told fresh (tape bytes.now)) }
{
    let mut text = Text::new(out);
    let mut n = 0;
    for record in Records::new(bytes) {
        let Ok(call) = record else {
            text.stop_line(n);
            return text.len();
        };
        let answer = obey(t, call);
        n += 1;
        text.tape_line(n, call, answer);
    }
    text.end_line(n);
    text.len()
}

// The same without printing: the tables that the tape leads to. One function for both would take a closure that is lent the text,
// and clauses on it longer than this loop.
#[tactic(auto, using(records::proofs::Running::running_end, records::proofs::Running::running_stop))]
pub fn replay(bytes: &[u8], t: &mut Numbers)
    requires { Lent t.old × (machine t.old ≡ fresh) }
    ensures { Lent t.new × (machine t.new ≡ run fresh (tape bytes.now).calls) }
{
    for record in Records::new(bytes) {
        let Ok(call) = record else {
            return;
        };
        // Nothing is printed here, so the answer is let go.
        let _ = obey(t, call);
    }
}

// What both programs print for a tape that is too long.
fn long(out: &mut [u8]) -> usize
    requires { 5 ≤ length out.old }
    ensures { Wrote out.old out.new 0 result (say "LONG\n") }
{
    let mut text = Text::new(out);
    text.long_line();
    text.len()
}

// What the tape program prints. It and the next stay apart: the pages know each by its name and contract.
#[tactic(auto, unfolding(text::specs::Tape::tape_text, text::specs::Tape::unless_long))]
pub fn tape_text(bytes: &[u8], t: &mut Numbers, out: &mut [u8; LINES]) -> usize
    ensures { Wrote out.old out.new 0 result (tape_text bytes.now) }
{
    if bytes.len() > records::TAPE {
        return long(out);
    }
    make_fresh(t);
    tell(bytes, t, out)
}

// What the tree program prints.
#[tactic(auto, unfolding(text::specs::Tree::tree_text, text::specs::Tape::unless_long))]
pub fn tree_text(bytes: &[u8], t: &mut Numbers, out: &mut [u8; listing::TREES]) -> usize
    ensures { Wrote out.old out.new 0 result (tree_text bytes.now) }
{
    if bytes.len() > records::TAPE {
        return long(out);
    }
    make_fresh(t);
    replay(bytes, t);
    listing::trees(t, out)
}

// A program: it reads a tape, and prints what a text function writes of it.
// The buffer is a type parameter, since the borrow checker covers no bound on a function that names a const parameter.
pub fn print<R: Input + Print, B: AsSlice<u8>, F: FnOnce(&[u8], &mut Numbers, &mut B) -> usize>(
    rt: &R,
    out: &mut B,
    text: F,
) -> io::Result<()>
    requires callable { F.IsAlwaysCallable text }
    requires within { (bytes t out n t' out' : _) → F.post text bytes t out n t' out' → n ≤ length (B.items out'.now) }
{
    let mut input = [0; records::TAPE + 1];
    let mut reader = rt.reader();
    let read = records::read_tape(&mut reader, &mut input);
    let n = text(&input[..read], &mut [0; TABLES], out);
    io::writer(rt).write_all(&out.as_slice()[..n])
}
