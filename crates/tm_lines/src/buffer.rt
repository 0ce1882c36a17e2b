//! The memory in which a line is made, from its end to its beginning. It is an array: a line takes no memory of the heap.

use itoa::write_digits;
use std::marker::Model;

// How many octets a line may have.
const LINE_CAPACITY: usize = 320;

// How many octets of a line are kept. The beginning of a packet's line has fewer.
const KEPT_CAPACITY: usize = 64;

// The beginning of the line of a packet that begins in the record that completes it. It stands after the octets to skip.
#[derive(Clone, Copy)]
struct Kept {
    octets: [u8; KEPT_CAPACITY],
    skipped: usize,
    seen: u32,
    channel: u8,
}

/// A line of at most 320 octets, the line feed included. It is made from its end to its beginning, so each part stands where it stays.
#[derive(Drop)]
pub struct LineBuffer {
    octets: [u8; LINE_CAPACITY],
    begin: usize,
    kept: Option<Kept>,
}

impl Model for LineBuffer {
    ghost use Rattle.std.specs.Prelude.{◌≡◌, ◌≤◌, ℕ, List, drop, IfSome};
    ghost use Rattle.tm_lines.specs.code.Parts.{packet_beginning};

    ghost Value = { List ℕ };

    ghost view = { λ line. drop line.begin line.octets };

    ghost invariant = { λ line. (line.begin ≤ 320) × IfSome line.kept (λ kept.
        (kept.skipped ≤ 64) × (drop kept.skipped kept.octets ≡ packet_beginning kept.seen kept.channel kept.seen)) };
}

impl LineBuffer {
    ghost use Rattle.std.specs.Prelude.{[], ◌≡◌, ◌+◌, ◌<◌, ◌≤◌, ◌++◌, length, codes};
    ghost use Rattle.std.specs.Fmt.{decimal};
    ghost use Rattle.tm_lines.specs.code.Parts.{packet_beginning};

    /// A line of no octets.
    #[tactic(auto, using(crate::proofs::BufferLemmas::nothing_behind))]
    pub fn new() -> LineBuffer
        ensures { result ≡ [] }
    {
        LineBuffer {
            octets: [0; LINE_CAPACITY],
            begin: LINE_CAPACITY,
            kept: None,
        }
    }

    /// The line.
    #[inline(always)]
    pub fn as_slice(&self) -> &[u8]
        ensures { result.now ≡ self.now }
    {
        &self.octets[self.begin..]
    }

    /// Drops what stands here.
    #[inline(always)]
    #[tactic(auto, using(crate::proofs::BufferLemmas::nothing_behind))]
    pub fn clear(&mut self)
        ensures { self.new ≡ [] }
    {
        self.begin = LINE_CAPACITY;
    }

    /// Drops what stands here, and puts the line feed that ends a line.
    #[inline(always)]
    pub fn start(&mut self)
        ensures text { self.new ≡ codes "\n" }
        ensures len { length self.new ≡ 1 }
    {
        self.octets[LINE_CAPACITY - 1] = b'\n';
        self.begin = LINE_CAPACITY - 1;
    }

    /// Puts a text in front. It goes octet by octet: for a constant text the compiler makes a few stores of words.
    #[inline(always)]
    #[tactic(auto, using(crate::proofs::BufferLemmas::behind_begin))]
    pub fn prepend_text<const N: usize>(&mut self, text: &[u8; N])
        requires { N + length self.old ≤ 320 }
        ensures text { self.new ≡ text.now ++ self.old }
        ensures len { length self.new ≡ N + length self.old }
    {
        let begin = self.begin - N;
        let octets = &mut self.octets;
        for i in 0..N {
            octets[begin + i] = text[i];
        }
        self.begin = begin;
    }

    /// Puts a number below ten in front. It is one digit.
    #[inline(always)]
    #[tactic(auto, using(crate::proofs::BufferLemmas::digit_before, crate::proofs::BufferLemmas::behind_begin))]
    pub fn prepend_digit(&mut self, digit: u8)
        requires digit { digit < 10 }
        requires room { 1 + length self.old ≤ 320 }
        ensures text { self.new ≡ decimal digit ++ self.old }
        ensures len { length self.new ≡ 1 + length self.old }
    {
        let begin = self.begin - 1;
        self.octets[begin] = b'0' + digit;
        self.begin = begin;
    }

    /// Puts a number below 2^32 in front. It has at most ten digits.
    #[inline(always)]
    #[tactic(auto, using(crate::proofs::BufferLemmas::ten_digits, crate::proofs::BufferLemmas::behind_begin))]
    pub fn prepend_number(&mut self, number: u32)
        requires { 10 + length self.old ≤ 320 }
        ensures text { self.new ≡ decimal number ++ self.old }
        ensures most { length self.new ≤ 10 + length self.old }
    {
        self.begin = write_digits(u64::from(number), &mut self.octets, self.begin);
    }

    /// Puts a number in front. It has at most twenty digits.
    #[inline(always)]
    #[tactic(auto, using(crate::proofs::BufferLemmas::twenty_digits, crate::proofs::BufferLemmas::behind_begin))]
    pub fn prepend_long_number(&mut self, number: u64)
        requires { 20 + length self.old ≤ 320 }
        ensures text { self.new ≡ decimal number ++ self.old }
        ensures most { length self.new ≤ 20 + length self.old }
    {
        self.begin = write_digits(number, &mut self.octets, self.begin);
    }

    /// Puts a word in front.
    #[tactic(auto, using(crate::proofs::BufferLemmas::behind_begin))]
    pub fn prepend_word(&mut self, word: &str)
        requires { length word.now + length self.old ≤ 320 }
        ensures text { self.new ≡ word.now ++ self.old }
        ensures len { length self.new ≡ length word.now + length self.old }
    {
        let begin = self.begin - word.len();
        self.octets[begin..self.begin].copy_from_slice(word.as_bytes());
        self.begin = begin;
    }

    // Puts the beginning of a packet's line in front.
    #[inline(always)]
    pub(crate) fn prepend_beginning(&mut self, seen: u32, channel: u8, first: u32)
        requires { 64 + length self.old ≤ 320 }
        ensures text { self.new ≡ packet_beginning seen channel first ++ self.old }
        ensures most { length self.new ≤ 64 + length self.old }
    {
        self.prepend_text(b" at=");
        self.prepend_number(first);
        self.prepend_text(b" from=");
        self.prepend_number(u32::from(channel));
        self.prepend_text(b" channel=");
        self.prepend_number(seen);
        self.prepend_text(b"packet record=");
    }

    // Puts the beginning of the line of a packet that begins in the record `seen` in front, and keeps it.
    fn keep_beginning(&mut self, seen: u32, channel: u8)
        requires { 64 + length self.old ≤ 320 }
        ensures { self.new ≡ packet_beginning seen channel seen ++ self.old }
    {
        let end = self.begin;
        self.prepend_beginning(seen, channel, seen);
        let mut octets = [0; KEPT_CAPACITY];
        octets.copy_from_slice(&self.octets[end - KEPT_CAPACITY..end]);
        self.kept = Some(Kept {
            octets,
            skipped: KEPT_CAPACITY - (end - self.begin),
            seen,
            channel,
        });
    }

    // Puts the beginning of the line of a packet that begins in the record `seen` in front. The last such beginning is kept, and copied where it is
    // the same again.
    #[inline(always)]
    pub(crate) fn repeat_beginning(&mut self, seen: u32, channel: u8)
        requires { 64 + length self.old ≤ 320 }
        ensures { self.new ≡ packet_beginning seen channel seen ++ self.old }
    {
        match self.kept {
            Some(kept) if kept.seen == seen && kept.channel == channel => {
                self.prepend_text(&kept.octets);
                self.begin += kept.skipped;
            }
            _ => self.keep_beginning(seen, channel),
        }
    }
}
