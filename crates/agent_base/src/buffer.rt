//! Bytes that were taken of a source and not given yet.
ghost use Rattle.std.specs.Prelude.{◌≡◌, ℕ, ◌+◌, ◌-◌, ◌<◌, ◌≤◌, List, [], length, take, MatchOption, None};
ghost use Rattle.std.specs.Prelude.{true, ◌⊎◌};
ghost use Rattle.std.specs.Prelude.{IfOk, OnErr, vec_len, vec_capacity, min};
ghost use Rattle.std.specs.Io.{ReadsAtMost};
ghost use Rattle.std.specs.Io.KnownBytes.{ReadConsumes, IsAtEnd};
ghost use Rattle.std.specs.List.{between};
ghost use Rattle.agent_base.specs.Cut.{HasEnd, NoEnd, FirstEnd, NoNewline, FirstNewline, without_return};
ghost use Rattle.agent_base.specs.Cut.{content, ends_piece, last_line, most_before, most_bytes};
ghost use Rattle.agent_base.specs.Hand.{empty_hand, to_come, IsSameToCome, Steps};
ghost use Rattle.agent_base.specs.Room.{room_of};
ghost use Rattle.agent_base.specs.Next.{GivesNext};
ghost use Rattle.agent_base.specs.PieceAnswers.{fault_of};
ghost use Rattle.agent_base.specs.Reads.{ReadHasCause};
ghost use Rattle.agent_base.specs.Taken.{Takes};
ghost use Rattle.agent_base.specs.declared.buffer.TheConstants.{MAX_TAKEN_BYTES};
ghost use Rattle.agent_base.specs.Cut.{Scanned};

use crate::{CutKind, Piece, PieceFault, ReadRefused, Source};
use fixed_num::OutOfMemory;
use memchr::memchr;
use std::alloc::Global;
use std::mem;

/// How many places are free for a read, at least.
const READ: usize = 65_536;

/// The greatest number of bytes that are taken.
const MAX_TAKEN_BYTES: u64 = 1 << 40;

/// How many places a read is lent, at least, where so many bytes may still be taken.
const LEAST: usize = 4_096;

// Where the first newline is.
fn newline_in(bytes: &[u8]) -> Option<usize>
    ensures { MatchOption result (NoNewline bytes.now) (FirstNewline bytes.now) }
{
    memchr(b'\n', bytes)
}

// The line without the carriage return at its end.
fn content_of(line: &[u8]) -> &[u8]
    ensures { result.now ≡ without_return line.now }
{
    match line {
        [front @ .., b'\r'] => front,
        _ => line,
    }
}

// Whether a line is `# EOF`.
#[tactic(auto, unfolding(crate::specs::Cut::ends_piece))]
fn is_last_line(line: &[u8]) -> bool
    ensures { result ≡ ends_piece CutKind.Expositions line.now }
{
    line == b"# EOF".as_slice()
}

// The content, in room that was taken before.
fn filled(mut room: Vec<u8>, content: &[u8]) -> Vec<u8>
    requires empty { room.items ≡ [] }
    requires fits { length content.now ≤ vec_capacity room }
    ensures { result.items ≡ content.now }
{
    room.extend_from_slice(content).unwrap();
    room
}

// Why no piece is given where a read was refused.
fn fault_of(refused: ReadRefused) -> PieceFault
    ensures { result ≡ fault_of refused }
{
    match refused {
        ReadRefused::OutOfMemory => PieceFault::OutOfMemory,
        ReadRefused::Failed => PieceFault::ReadFault,
    }
}

// Reads into so many places of a buffer, from one on, and counts the bytes that are taken.
fn read_into<S: Source>(
    buf: &mut Vec<u8>,
    at: usize,
    most: usize,
    taken: &mut u64,
    src: &mut S,
) -> Result<usize, ReadRefused>
    requires room { at + most ≤ vec_len buf.old }
    requires least { min LEAST (MAX_TAKEN_BYTES - taken.old) ≤ most }
    requires limit { taken.old + most ≤ MAX_TAKEN_BYTES }
    ensures len { vec_len buf.new ≡ vec_len buf.old }
    ensures bound { IfOk result (λ n. n ≤ most) }
    ensures before { take at buf.new.items ≡ take at buf.old.items }
    ensures bytes { ReadConsumes (S.told src.old).bytes (S.told src.new).bytes result
        (between at (at + most) buf.new.items) }
    ensures cause { ReadHasCause (S.told src.old).faults (S.told src.new).faults result }
    ensures counted { IfOk result (λ n. taken.new ≡ taken.old + n) }
    ensures kept { OnErr result (taken.new ≡ taken.old) }
{
    let n = src.read(&mut buf[at..at + most])?;
    *taken += n as u64;
    Ok(n)
}

/// The bytes in hand stand from `start` to `end`, and no piece ends among them before `searched`, where the line
/// that begins at `line` has come to. `spare` is memory for a piece, and for no longer one.
#[derive(Debug, Drop)]
pub(crate) struct Buffer {
    kind: CutKind,
    buf: Vec<u8>,
    spare: Vec<u8>,
    start: usize,
    line: usize,
    searched: usize,
    end: usize,
    passing: bool,
    taken: u64,
    ghost room: { vec_len buf ≡ room_of kind },
    ghost spared: { vec_capacity spare ≤ most_bytes kind },
    ghost begun: { start ≤ line },
    ghost in_line: { line ≤ searched },
    ghost ordered: { searched ≤ end },
    ghost within: { end ≤ vec_len buf },
    ghost most: { taken ≤ MAX_TAKEN_BYTES },
    ghost clean: { NoEnd kind (between start searched buf.items) },
    ghost last: { last_line [] (between start searched buf.items) ≡ between line searched buf.items },
}

impl Buffer {
    ghost use Rattle.agent_base.specs.Buffered.{bytes_of, hand_of};
    ghost use Rattle.agent_base.specs.PieceAnswers.{Answers, IsGiven, IsShort};
    ghost use Rattle.agent_base.specs.PieceAnswers.{IsGivenOrUnchanged, IsLast};

    /// Nothing is in hand.
    pub(crate) fn new(alloc: Global, kind: CutKind) -> Result<Buffer, OutOfMemory>
        ensures { IfOk result (λ b. hand_of b ≡ empty_hand kind) }
    {
        let buf = vec![in alloc; 0u8; kind.sizes().room]?;
        Ok(Buffer {
            kind,
            buf,
            spare: Vec::new(alloc),
            start: 0,
            line: 0,
            searched: 0,
            end: 0,
            passing: false,
            taken: 0,
        })
    }

    // How many bytes in hand stand before the newline of the first line that ends a piece.
    fn find_end(&mut self) -> Option<usize>
        ensures found { MatchOption result (NoEnd self.old.kind (bytes_of self.old))
            (FirstEnd self.old.kind (bytes_of self.old)) }
        ensures same { hand_of self.new ≡ hand_of self.old }
        ensures all { result ≡ None → self.new.searched ≡ self.new.end }
    {
        match self.kind {
            CutKind::Lines => self.find_newline(),
            CutKind::Expositions => self.find_last_line(),
        }
    }

    // The same of lines.
    fn find_newline(&mut self) -> Option<usize>
        requires kind { self.old.kind ≡ CutKind.Lines }
        ensures found { MatchOption result (NoEnd self.old.kind (bytes_of self.old))
            (FirstEnd self.old.kind (bytes_of self.old)) }
        ensures same { hand_of self.new ≡ hand_of self.old }
        ensures all { result ≡ None → self.new.searched ≡ self.new.end }
    {
        match newline_in(&self.buf[self.searched..self.end]) {
            Some(i) => Some(self.searched + i - self.start),
            None => {
                self.searched = self.end;
                None
            }
        }
    }

    // The same of expositions.
    fn find_last_line(&mut self) -> Option<usize>
        requires kind { self.old.kind ≡ CutKind.Expositions }
        ensures found { MatchOption result (NoEnd self.old.kind (bytes_of self.old))
            (FirstEnd self.old.kind (bytes_of self.old)) }
        ensures same { hand_of self.new ≡ hand_of self.old }
        ensures all { result ≡ None → self.new.searched ≡ self.new.end }
    {
        'lines: loop {
            match newline_in(&self.buf[self.searched..self.end]) {
                None => {
                    self.searched = self.end;
                    return None;
                }
                Some(i) => {
                    let newline = self.searched + i;
                    if is_last_line(&self.buf[self.line..newline]) {
                        return Some(newline - self.start);
                    }
                    self.begin_line(newline + 1);
                }
            }
        }
    }

    // Begins a line behind a newline.
    fn begin_line(&mut self, at: usize)
        requires in_line { self.old.searched < at }
        requires ordered { at ≤ self.old.end }
        requires scanned { Scanned self.old.kind (between self.old.start at self.old.buf.items) [] }
        ensures same { hand_of self.new ≡ hand_of self.old }
        ensures start { self.new.start ≡ self.old.start }
        ensures searched { self.new.searched ≡ at }
        ensures line { self.new.line ≡ at }
        ensures end { self.new.end ≡ self.old.end }
    {
        self.line = at;
        self.searched = at;
    }

    // The content of the piece that ends with the newline behind so many bytes.
    fn content(&self, i: usize) -> &[u8]
        requires end { FirstEnd self.now.kind (bytes_of self.now) i }
        requires short { i ≤ most_before self.now.kind }
        ensures content { result.now ≡ content self.now.kind (take i (bytes_of self.now)) }
        ensures short { length result.now ≤ min (i + 1) (most_bytes self.now.kind) }
    {
        match self.kind {
            CutKind::Lines => content_of(&self.buf[self.start..self.start + i]),
            CutKind::Expositions => &self.buf[self.start..self.start + i + 1],
        }
    }

    // Gives the piece of so many bytes and its newline, in room that was taken before. Where it gives none the room
    // is spare.
    fn give(&mut self, room: Vec<u8>, i: usize) -> Result<Option<Piece>, PieceFault>
        requires end { FirstEnd self.old.kind (bytes_of self.old) i }
        requires empty { room.items ≡ [] }
        requires fits { min (i + 1) (most_bytes self.old.kind) ≤ vec_capacity room }
        requires spare { vec_capacity room ≤ most_bytes self.old.kind }
        ensures pieces { (left : List ℕ)
            → Answers result (to_come (hand_of self.old) left) (to_come (hand_of self.new) left) }
        ensures given { IsGiven result }
        ensures short { IsShort self.old.kind result }
        ensures kind { self.new.kind ≡ self.old.kind }
        ensures counted { self.new.taken ≡ self.old.taken }
    {
        let piece_end = self.start + i + 1;
        if self.passing {
            self.spare = room;
            self.skip_to(piece_end);
            self.passing = false;
            return Err(PieceFault::TooLong);
        }
        if self.kind.sizes().most_before < i {
            self.spare = room;
            self.skip_to(piece_end);
            return Err(PieceFault::TooLong);
        }
        let bytes = filled(room, self.content(i));
        self.skip_to(piece_end);
        Ok(Some(Piece::of(bytes)))
    }

    // Lets the bytes before a place go.
    fn skip_to(&mut self, at: usize)
        requires { at ≤ self.old.end }
        ensures bytes { bytes_of self.new ≡ between at self.old.end self.old.buf.items }
        ensures kind { self.new.kind ≡ self.old.kind }
        ensures passing { self.new.passing ≡ self.old.passing }
        ensures taken { self.new.taken ≡ self.old.taken }
    {
        self.start = at;
        self.line = at;
        self.searched = at;
    }

    // Makes room for a read: lets a piece go that is too long, or moves the bytes to the front.
    fn make_room(&mut self)
        requires { self.old.searched ≡ self.old.end }
        ensures same { IsSameToCome (hand_of self.old) (hand_of self.new) }
        ensures kind { self.new.kind ≡ self.old.kind }
        ensures none { NoEnd self.new.kind (bytes_of self.new) }
        ensures short { length (bytes_of self.new) ≤ most_bytes self.new.kind }
        ensures room { self.new.end + READ ≤ room_of self.new.kind }
    {
        if self.passing || self.kind.sizes().most_bytes < self.end - self.start {
            self.pass_over();
            return;
        }
        if self.end <= self.buf.len() - READ {
            return;
        }
        self.move_to_front();
    }

    // Lets the bytes of a piece go that is passed over, but for what has begun of a line.
    fn pass_over(&mut self)
        requires all { self.old.searched ≡ self.old.end }
        requires long { (self.old.passing ≡ true)
            ⊎ (most_bytes self.old.kind < length (bytes_of self.old)) }
        ensures same { IsSameToCome (hand_of self.old) (hand_of self.new) }
        ensures kind { self.new.kind ≡ self.old.kind }
        ensures none { NoEnd self.new.kind (bytes_of self.new) }
        ensures short { self.new.end ≤ 6 }
    {
        let kept = usize::min(self.end - self.line, self.kind.sizes().most_kept);
        self.buf.copy_within(self.line..self.line + kept, 0);
        self.start = 0;
        self.line = 0;
        self.searched = kept;
        self.end = kept;
        self.passing = true;
    }

    // Lets all bytes go.
    fn skip_all(&mut self)
        ensures bytes { bytes_of self.new ≡ [] }
        ensures kind { self.new.kind ≡ self.old.kind }
        ensures passing { self.new.passing ≡ self.old.passing }
        ensures taken { self.new.taken ≡ self.old.taken }
    {
        self.start = 0;
        self.line = 0;
        self.searched = 0;
        self.end = 0;
    }

    // Moves the bytes to the front.
    fn move_to_front(&mut self)
        requires { length (bytes_of self.old) ≤ most_bytes self.old.kind }
        ensures same { hand_of self.new ≡ hand_of self.old }
        ensures short { self.new.end ≤ most_bytes self.new.kind }
    {
        self.buf.copy_within(self.start..self.end, 0);
        self.end -= self.start;
        self.searched -= self.start;
        self.line -= self.start;
        self.start = 0;
    }

    // How many places the next read is lent: all that are free, and no more than the bytes that may still be
    // taken.
    fn lent(&self) -> usize
        requires room { self.now.end + READ ≤ room_of self.now.kind }
        requires most { self.now.taken < MAX_TAKEN_BYTES }
        ensures least { min LEAST (MAX_TAKEN_BYTES - self.now.taken) ≤ result }
        ensures some { 0 < result }
        ensures free { self.now.end + result ≤ room_of self.now.kind }
        ensures most { self.now.taken + result ≤ MAX_TAKEN_BYTES }
    {
        usize::min(
            self.buf.len() - self.end,
            (MAX_TAKEN_BYTES - self.taken) as usize,
        )
    }

    // Reads more bytes behind those in hand.
    fn read_more<S: Source>(&mut self, src: &mut S) -> Result<usize, ReadRefused>
        requires room { self.old.end + READ ≤ room_of self.old.kind }
        requires most { self.old.taken < MAX_TAKEN_BYTES }
        ensures steps { Steps (S.told src.old).bytes (S.told src.new).bytes (hand_of self.old) (hand_of self.new) }
        ensures takes { Takes (S.told src.old).bytes (S.told src.new).bytes (hand_of self.old) (hand_of self.new) }
        ensures end { result ≡ Ok 0 → (hand_of self.new ≡ hand_of self.old) × IsAtEnd (S.told src.new).bytes }
        ensures failed { OnErr result (hand_of self.new ≡ hand_of self.old) }
        ensures kind { self.new.kind ≡ self.old.kind }
        ensures counted { IfOk result (λ n. self.new.taken ≡ self.old.taken + n) }
        ensures cause { ReadHasCause (S.told src.old).faults (S.told src.new).faults result }
    {
        let most = self.lent();
        let n = read_into(&mut self.buf, self.end, most, &mut self.taken, src)?;
        self.end += n;
        Ok(n)
    }

    // Gives what is in hand at the end of the source, in room that was taken before. Where it gives nothing the
    // room is spare.
    fn finish(&mut self, room: Vec<u8>) -> Result<Option<Piece>, PieceFault>
        requires none { NoEnd self.old.kind (bytes_of self.old) }
        requires short { length (bytes_of self.old) ≤ most_bytes self.old.kind }
        requires empty { room.items ≡ [] }
        requires fits { vec_capacity room ≡ most_bytes self.old.kind }
        ensures pieces { Answers result (to_come (hand_of self.old) []) (to_come (hand_of self.new) []) }
        ensures last { IsLast result }
        ensures short { IsShort self.old.kind result }
        ensures empty { bytes_of self.new ≡ [] }
        ensures spent { to_come (hand_of self.new) [] ≡ [] }
        ensures kind { self.new.kind ≡ self.old.kind }
        ensures counted { self.new.taken ≡ self.old.taken }
    {
        if self.passing {
            self.spare = room;
            self.skip_all();
            self.passing = false;
            return Err(PieceFault::TooLong);
        }
        if self.start == self.end {
            self.spare = room;
            return Ok(None);
        }
        let bytes = filled(room, &self.buf[self.start..self.end]);
        self.skip_all();
        Ok(Some(Piece::of(bytes)))
    }

    // Room for so many bytes, in the memory of a piece that was taken back where there is one.
    fn room_for(&mut self, most: usize) -> Result<Vec<u8>, OutOfMemory>
        requires { most ≤ most_bytes self.old.kind }
        ensures empty { IfOk result (λ room. room.items ≡ []) }
        ensures fits { IfOk result (λ room. most ≤ vec_capacity room) }
        ensures spare { IfOk result (λ room. vec_capacity room ≤ most_bytes self.old.kind) }
        ensures same { hand_of self.new ≡ hand_of self.old }
        ensures searched { self.new.searched ≡ self.old.searched }
        ensures end { self.new.end ≡ self.old.end }
    {
        let none = Vec::new(*self.buf.allocator());
        let mut room = mem::replace(&mut self.spare, none);
        room.clear();
        room.reserve_exact(most)?;
        Ok(room)
    }

    /// Takes the memory of a piece back, for the next one. Memory for more bytes than a piece of the kind has at most
    /// is let go.
    pub(crate) fn take_back(&mut self, bytes: Vec<u8>)
        ensures { hand_of self.new ≡ hand_of self.old }
    {
        if bytes.capacity() <= self.kind.sizes().most_bytes {
            self.spare = bytes;
        }
    }

    // Gives the piece of so many bytes and its newline that is in hand.
    #[inline(always)]
    fn give_in_hand(&mut self, i: usize) -> Result<Option<Piece>, PieceFault>
        requires { FirstEnd self.old.kind (bytes_of self.old) i }
        ensures pieces { (left : List ℕ)
            → Answers result (to_come (hand_of self.old) left) (to_come (hand_of self.new) left) }
        ensures given { IsGivenOrUnchanged result (hand_of self.old) (hand_of self.new) }
        ensures short { IsShort self.old.kind result }
        ensures kind { self.new.kind ≡ self.old.kind }
        ensures counted { self.new.taken ≡ self.old.taken }
    {
        let most = usize::min(i + 1, self.kind.sizes().most_bytes);
        match self.room_for(most) {
            Ok(room) => self.give(room, i),
            Err(OutOfMemory) => Err(PieceFault::OutOfMemory),
        }
    }

    // Reads until a piece is in hand, and gives it. All room is taken before the first read; after a read that
    // was refused it is spare.
    fn read_piece<S: Source>(&mut self, src: &mut S) -> Result<Option<Piece>, PieceFault>
        requires all { self.old.searched ≡ self.old.end }
        requires most { self.old.taken < MAX_TAKEN_BYTES }
        ensures gives { GivesNext result (hand_of self.old) (hand_of self.new) (S.told src.old) (S.told src.new) }
    {
        let most = self.kind.sizes().most_bytes;
        let Ok(room) = self.room_for(most) else {
            return Err(PieceFault::OutOfMemory);
        };
        'reads: loop {
            self.make_room();
            match self.read_more(src) {
                Err(refused) => {
                    self.spare = room;
                    return Err(fault_of(refused));
                }
                Ok(0) => return self.finish(room),
                Ok(_) => {}
            }
            if self.taken == MAX_TAKEN_BYTES {
                return Err(PieceFault::ByteLimit);
            }
            if let Some(i) = self.find_end() {
                return self.give(room, i);
            }
        }
    }

    /// The next piece of the bytes in hand and those that the source has left.
    pub(crate) fn next<S: Source>(&mut self, src: &mut S) -> Result<Option<Piece>, PieceFault>
        ensures gives { GivesNext result (hand_of self.old) (hand_of self.new) (S.told src.old) (S.told src.new) }
        ensures in_hand { HasEnd self.old.kind (bytes_of self.old) → src.new ≡ src.old }
        ensures whole { HasEnd self.old.kind (bytes_of self.old) → (left : List ℕ)
            → Answers result (to_come (hand_of self.old) left) (to_come (hand_of self.new) left) }
    {
        if self.taken == MAX_TAKEN_BYTES {
            return Err(PieceFault::ByteLimit);
        }
        match self.find_end() {
            Some(i) => self.give_in_hand(i),
            None => self.read_piece(src),
        }
    }
}
