// Reading a tape: its records, fourteen bytes each, as calls.
#![tactic(auto)]

ghost use Rattle.std.specs.Prelude.{◌≡◌, ◌+◌, ◌≤◌, length};
ghost use Rattle.std.specs.Iterator.{at_most};
ghost use Rattle.text.specs.Tape.{Tape, record_size, is_record, word_at, call_from, tape};
ghost use Rattle.io.specs.Counts.{IsPrefixLen};
ghost use Rattle.records.specs.Reading.{Gives, items_left, read_at};

use std::io::Read;
use std::marker::Model;
use std::mem;
use things::Call;

// A record's bytes, and those of the longest tape.
pub const RECORD: usize = 14;

pub const RECORDS: usize = 4096;

pub const TAPE: usize = RECORDS * RECORD;

// The bytes that every record begins with: 50 43.
const MARK: [u8; 2] = *b"PC";

// A 16-bit number, low byte first; at a position, as its definition has it.
fn word_at(bytes: &[u8], k: usize) -> u16
    requires { k + 2 ≤ length bytes.now }
    ensures { result ≡ word_at bytes.now k }
{
    u16::from_le_bytes([bytes[k], bytes[k + 1]])
}

// Whether the bytes begin with a record, which is whole and has the mark.
#[tactic(auto, unfolding(text::specs::Tape::is_record))]
fn is_record(bytes: &[u8]) -> bool
    ensures { result ≡ is_record bytes.now }
{
    bytes.len() >= RECORD && bytes.starts_with(&MARK)
}

// The call of the record that the bytes begin with.
#[tactic(auto, unfolding(text::specs::Tape::call_from))]
fn call_from(bytes: &[u8]) -> Call
    requires { record_size ≤ length bytes.now }
    ensures { result ≡ call_from bytes.now }
{
    Call {
        caller: u16::from(bytes[2]),
        number: u16::from(bytes[3]),
        a: word_at(bytes, 4),
        b: word_at(bytes, 6),
        c: word_at(bytes, 8),
        d: word_at(bytes, 10),
        e: word_at(bytes, 12),
    }
}

// What is left of a tape begins with no record: it is cut short, or has another mark.
#[derive(Clone, Copy, PartialEq, Eq)]
pub struct NoRecord;

// What stands on the tape at a position: nothing more, a record's call, or no record.
#[tactic(auto, using(crate::proofs::Steps::read_end, crate::proofs::Steps::read_stop, crate::proofs::Steps::read_record, crate::proofs::Steps::record_whole))]
pub fn read_at(bytes: &[u8], k: usize) -> Option<Result<Call, NoRecord>>
    ensures { result ≡ read_at bytes.now k }
{
    if bytes.len() <= k {
        return None;
    }
    let rest = &bytes[k..];
    if !is_record(rest) {
        return Some(Err(NoRecord));
    }
    Some(Ok(call_from(rest)))
}

// The records of a tape from its front. Where no record begins, NoRecord is given once, and the end comes after it.
#[derive(Drop)]
pub struct Records<'a> {
    rest: &'a [u8],
}

impl<'a> Model for Records<'a> {
    ghost Value = { Tape };

    ghost view = { λ records. tape records.rest.now };
}

impl<'a> Records<'a> {
    pub fn new(bytes: &'a [u8]) -> Self
        ensures { result ≡ tape bytes.now }
    {
        Self { rest: bytes }
    }
}

impl<'a> Iterator for Records<'a> {
    type Item = Result<Call, NoRecord>;

    ghost next_gives = { Gives };

    ghost remaining = { λ left. at_most (items_left left) };

    #[tactic(auto, using(crate::proofs::Steps::tape_end, crate::proofs::Steps::begins_end, crate::proofs::Steps::begins_stop, crate::proofs::Steps::begins_call, crate::proofs::Steps::begins_whole, crate::proofs::Steps::begins_fewer))]
    fn next(&mut self) -> Option<Result<Call, NoRecord>> {
        // Only a record puts the rest back: nothing is read after a place where none begins.
        let bytes = mem::take(&mut self.rest);
        match read_at(bytes, 0) {
            Some(Ok(call)) => {
                self.rest = &bytes[RECORD..];
                Some(Ok(call))
            }
            Some(Err(why)) => Some(Err(why)),
            None => None,
        }
    }
}

// The tape on a reader, whether it comes whole or in pieces: how many bytes stand at the start of the buffer. The buffer has
// one byte more than the longest tape, so that a longer one shows by the count. A read that fails ends the tape as its end
// does. It stays a loop: `read_exact` keeps no count of a tape that is shorter, and `read_to_end` needs the heap. It answers a count:
// that a buffer which is lent on into the result begins so got no proof.
pub fn read_tape<R: Read>(reader: &mut R, buffer: &mut [u8; TAPE + 1]) -> usize
    ensures { IsPrefixLen result buffer.new }
{
    let mut done = 0;
    while done < buffer.len() {
        let Ok(n @ 1..) = reader.read(&mut buffer[done..]) else {
            break;
        };
        done += n;
    }
    done
}
