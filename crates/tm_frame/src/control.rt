//! Error control (CCSDS 132.0-B-3, 4.1.6), by folding and by a table.

ghost use Rattle.std.specs.Prelude.{◌≡◌, ◌≤◌, ◌<◌, ◌+◌, ◌-◌, ◌*◌, ◌/◌, ◌%◌, ◌∷◌, [], ◌++◌, ℕ, List, length, take, drop, bit_xor};
ghost use Rattle.tm_bits.specs.Bits.{bits_of, low_bits};
ghost use Rattle.tm_frame.specs.ErrorControl.{error_control_of};
ghost use Rattle.tm_frame.specs.Fault.{control_holds};
ghost use Rattle.tm_frame.specs.code.Folding.{Folds, bits_of_words, octets_remainder, remainder_from, rest_of_pair, shifted, words_remainder};

use crate::table::table_entry;
use byteorder::{BigEndian, ByteOrder};
use std::simd::prelude::*;

// Fewer octets than this go faster by the table: folding takes the time of a whole block, however few they are.
const FEW: usize = 16;

/// The error control of octets: the remainder of their bits and 16 zero bits by `x^16 + x^12 + x^5 + 1`. The register is preset
/// to ones, and the most significant bit comes first.
#[tactic(auto, using(crate::proofs::FoldPairs::by_blocks))]
pub fn error_control(octets: &[u8]) -> u16
    ensures { result ≡ error_control_of octets.now }
{
    if octets.len() < FEW {
        return error_control_by_table(octets);
    }
    let (first, blocks) = octets.split_at(octets.len() % 128);
    let mut held = [0; 128];
    begin(&mut held, first);
    let mut rest = blocks;
    while rest.len() >= 128 {
        let (block, behind) = rest.split_at(128);
        append_block(&mut held, block);
        rest = behind;
    }
    let mut last = [0; 128];
    copy(&mut last, &held);
    finish(&last)
}

/// The same as `error_control`, octet by octet through the table of 256 entries (CCSDS 132.0-B-3, 4.1.6): the plain
/// program. It is slower, except for few octets.
// Apart from its callers, since its loop would take registers from the folding there.
#[inline(never)]
#[tactic(auto, using(crate::proofs::Entries::octet_by_octet))]
pub fn error_control_by_table(octets: &[u8]) -> u16
    ensures { result ≡ error_control_of octets.now }
{
    let mut register = 0xFFFF;
    for octet in octets {
        register = shift_octet(register, *octet);
    }
    register
}

/// The frame's last two octets are the error control of those before.
#[tactic(auto, using(crate::proofs::HeaderLemmas::part_control))]
pub fn control_holds(frame: &[u8]) -> bool
    requires { 9 ≤ length frame.now }
    ensures { result ≡ control_holds frame.now }
{
    let (before, control) = frame.split_at(frame.len() - 2);
    BigEndian::read_u16(control) == error_control(before)
}

// The register after an octet. Its high half and the octet choose the entry.
#[inline(always)]
#[tactic(auto, using(crate::proofs::Entries::octet_by_entry))]
fn shift_octet(register: u16, octet: u8) -> u16
    ensures { result ≡ remainder_from register (low_bits 8 octet) }
{
    (register << 8) ^ table_entry((register >> 8) as u8 ^ octet)
}

// 128 octets with the remainder of the first octets. Zeros in front change no remainder, and that of 0x84CF
// is a register of ones.
#[inline(always)]
#[tactic(auto, using(crate::proofs::FoldPairs::begun, crate::proofs::Fold::folds_64))]
fn begin(held: &mut [u8; 128], first: &[u8])
    requires { length first.now < 128 }
    ensures { octets_remainder held.new ≡ remainder_from 65535 (bits_of first.now) }
{
    let mut octets = [0; 144];
    let (_, behind) = octets.split_at_mut(142 - first.len());
    let (preset, back) = behind.split_at_mut(2);
    preset.copy_from_slice(&[0x84, 0xCF]);
    back.copy_from_slice(first);
    fold_pairs(&mut octets, 8);
    copy(held, &octets[16..]);
}

// Octets with the remainder of those held and of a block that follows them.
#[inline(always)]
#[tactic(auto, using(crate::proofs::FoldPairs::appended, crate::proofs::Fold::folds_64))]
fn append_block(held: &mut [u8; 128], block: &[u8])
    requires { length block.now ≡ 128 }
    ensures { octets_remainder held.new ≡ remainder_from (octets_remainder held.old) (bits_of block.now) }
{
    let mut octets = [0; 256];
    let (front, back) = octets.split_at_mut(128);
    copy(front, held);
    copy(back, block);
    fold_pairs(&mut octets, 8);
    copy(held, &octets[128..]);
}

// The remainder of the octets: pairs and then words are folded once more, and four words are left. Apart from its caller, which gives a
// copy: else the compiler would keep the octets held in memory or as words.
#[inline(never)]
#[tactic(auto, using(crate::proofs::Fold::folds_32, crate::proofs::Fold::folds_16))]
fn finish(held: &[u8; 128]) -> u16
    ensures { result ≡ octets_remainder held.now }
{
    let mut octets = [0; 128];
    copy(&mut octets, held);
    fold_pairs(&mut octets, 4);
    let mut words = [0; 8];
    fill(&mut words, &octets[64..]);
    fold(&mut words, 16);
    let [_, _, _, _, first, second, third, last] = words;
    divide_four(first, second, third, last)
}

// The octets that are given. Pair by pair, since `copy_from_slice` asks where slices lie, and so would keep
// all octets in memory.
#[inline(always)]
#[tactic(auto, using(crate::proofs::FoldPairs::pair_copied))]
fn copy(octets: &mut [u8], from: &[u8])
    requires same { length from.now ≡ length octets.old }
    requires whole { length octets.old % 16 ≡ 0 }
    ensures { octets.new ≡ from.now }
{
    for i in 0..octets.len() / 16 {
        u8x16::from_slice(&from[16 * i..]).copy_to_slice(&mut octets[16 * i..]);
    }
}

// All pairs of words are taken away from the front, until 16 times `step` octets are left. A vector of the processor holds a pair. After
// the last pair its rest is still to be added.
#[inline(always)]
#[tactic(auto, using(crate::proofs::FoldPairs::pair_by_pair))]
fn fold_pairs(octets: &mut [u8], step: usize)
    requires folds { Folds (8 * step) }
    requires few { 4 ≤ step }
    requires many { step ≤ 8 }
    requires quarters { step % 4 ≡ 0 }
    requires room { 16 * step ≤ length octets.old }
    requires whole { length octets.old % 16 ≡ 0 }
    ensures len { length octets.new ≡ length octets.old }
    ensures same { octets_remainder (drop (length octets.old - 16 * step) octets.new) ≡ octets_remainder octets.old }
{
    let none = u8x16::splat(0);
    let mut before = none;
    for i in 0..octets.len() / 16 - step {
        let (front, behind) = octets.split_at_mut(16 * i + 16);
        let pair = u8x16::from_slice(&front[16 * i..]);
        fold_pair(behind, step, before, pair);
        before = pair;
    }
    let (_, left) = octets.split_at_mut(octets.len() - 16 * step);
    add_pair(left, 12 * step - 16, pair_across(step, before, none));
}

// The pair before these octets is taken away: it is added 4, 11 and 16 times `step` octets further on, less its own 16. Eleven times
// `step` are no whole pairs. There its first `step` octets are added beside the others of the pair before, and its own others wait
// for the next pair.
#[inline(always)]
fn fold_pair(octets: &mut [u8], step: usize, before: u8x16, pair: u8x16)
    requires folds { Folds (8 * step) }
    requires few { 4 ≤ step }
    requires many { step ≤ 8 }
    requires quarters { step % 4 ≡ 0 }
    requires room { 16 * step ≤ length octets.old }
    requires both { length before ≡ 16 }
    requires sixteen { length pair ≡ 16 }
    ensures len { length octets.new ≡ length octets.old }
    ensures same { bit_xor (octets_remainder octets.new) (rest_of_pair step (length octets.old - (11 * step)) pair)
        ≡ bit_xor (octets_remainder (pair ++ octets.old)) (rest_of_pair step (length octets.old - (11 * step - 16)) before) }
{
    add_pair(octets, 4 * step - 16, pair);
    add_pair(octets, 12 * step - 32, pair_across(step, before, pair));
    add_pair(octets, 16 * step - 16, pair);
}

// All but the first octets of a pair, 8 or 4, and as many of the next.
#[inline(always)]
fn pair_across(step: usize, pair: u8x16, next: u8x16) -> u8x16
    requires few { 4 ≤ step }
    requires many { step ≤ 8 }
    requires quarters { step % 4 ≡ 0 }
    requires both { length pair ≡ 16 }
    requires sixteen { length next ≡ 16 }
    ensures len { length result ≡ 16 }
    ensures octets { result ≡ drop step pair ++ take step next }
{
    if step == 8 {
        pair.shuffle(
            next,
            [8, 9, 10, 11, 12, 13, 14, 15, 16, 17, 18, 19, 20, 21, 22, 23],
        )
    } else {
        pair.shuffle(
            next,
            [4, 5, 6, 7, 8, 9, 10, 11, 12, 13, 14, 15, 16, 17, 18, 19],
        )
    }
}

// A pair is added without carries to the octets at a place.
#[inline(always)]
#[tactic(auto, using(crate::proofs::FoldPairs::pair_added))]
fn add_pair(octets: &mut [u8], at: usize, pair: u8x16)
    requires room { at + 16 ≤ length octets.old }
    requires sixteen { length pair ≡ 16 }
    ensures len { length octets.new ≡ length octets.old }
    ensures sum { octets_remainder octets.new ≡ bit_xor (octets_remainder octets.old)
        (shifted (8 * (length octets.old - (at + 16))) (bits_of pair)) }
{
    let sum = u8x16::from_slice(&octets[at..]) ^ pair;
    sum.copy_to_slice(&mut octets[at..]);
}

// The words that octets spell.
#[inline(always)]
#[tactic(auto, using(crate::proofs::FoldWords::fill_none, crate::proofs::FoldWords::fill_step))]
fn fill(words: &mut [u64], octets: &[u8])
    requires { length octets.now ≡ 8 * length words.old }
    ensures len { length words.new ≡ length words.old }
    ensures same { bits_of_words words.new ≡ bits_of octets.now }
{
    for i in 0..words.len() {
        words[i] = BigEndian::read_u64(&octets[8 * i..]);
    }
}

// All words are taken away from the front, until 16 times `width` bits are left.
#[inline(always)]
#[tactic(auto, using(crate::proofs::FoldWords::word_taken))]
fn fold(words: &mut [u64], width: usize)
    requires folds { Folds width }
    requires wide { 16 ≤ width }
    requires narrow { width ≤ 64 }
    requires quarters { width % 4 ≡ 0 }
    requires room { width / 4 ≤ length words.old }
    ensures len { length words.new ≡ length words.old }
    ensures same { words_remainder (drop (length words.old - width / 4) words.new) ≡ words_remainder words.old }
{
    for i in 0..words.len() - width / 4 {
        let (front, behind) = words.split_at_mut(i + 1);
        fold_word(behind, width, front[i]);
    }
}

// The word before these words is taken away: it is added where its bits stand 4, 11 and 16 times `width`
// bits further on.
#[inline(always)]
#[tactic(auto, using(crate::proofs::FoldWords::word_folds))]
fn fold_word(words: &mut [u64], width: usize, word: u64)
    requires folds { Folds width }
    requires wide { 16 ≤ width }
    requires narrow { width ≤ 64 }
    requires room { 16 * width ≤ 64 * length words.old }
    ensures len { length words.new ≡ length words.old }
    ensures same { words_remainder words.new ≡ words_remainder (word ∷ words.old) }
{
    add_at(words, 4 * width - 64, word);
    add_at(words, 11 * width - 64, word);
    add_at(words, 16 * width - 64, word);
}

// A word is added without carries `bits` bits after the front.
#[inline(always)]
#[tactic(auto, using(crate::proofs::FoldWords::added_at, crate::proofs::FoldWords::added_across))]
fn add_at(words: &mut [u64], place: usize, word: u64)
    requires { place + 64 ≤ 64 * length words.old }
    ensures len { length words.new ≡ length words.old }
    ensures sum { words_remainder words.new ≡ bit_xor (words_remainder words.old)
        (shifted (64 * length words.old - (place + 64)) (low_bits 64 word)) }
{
    let at = place / 64;
    let within = place % 64;
    words[at] ^= word >> within;
    if within > 0 {
        words[at + 1] ^= word << (64 - within);
    }
}

// The remainder of four words. The first two are taken away by the generator's power 8, the third by its power 4, and the last is divided.
#[inline(always)]
fn divide_four(first: u64, second: u64, third: u64, last: u64) -> u16
    ensures { result ≡ words_remainder (first ∷ second ∷ third ∷ last ∷ []) }
{
    let (second, third) = fold_into_two(first, second, third);
    let (third, last) = fold_into_two(second, third, last);
    divide_word(fold_into_one(third, last))
}

// The word before two others is taken away: its quotient by the generator's power 8 is added to them, 32, 88 and 128 bits further on.
#[inline(always)]
fn fold_into_two(word: u64, next: u64, after: u64) -> (u64, u64)
    ensures { (ws : List ℕ) → words_remainder (result.0 ∷ result.1 ∷ ws) ≡ words_remainder (word ∷ next ∷ after ∷ ws) }
{
    let quotient = word ^ (word >> 32);
    (
        next ^ ((quotient << 32) ^ (quotient >> 24)),
        after ^ ((quotient << 40) ^ quotient),
    )
}

// The word before another is taken away: its quotient by the generator's power 4 is added to it, 16, 44 and 64 bits further on.
#[inline(always)]
fn fold_into_one(word: u64, next: u64) -> u64
    ensures { words_remainder (result ∷ []) ≡ words_remainder (word ∷ next ∷ []) }
{
    let mut quotient = word ^ (word >> 32);
    quotient ^= (quotient >> 16) ^ (quotient >> 44);
    next ^ ((quotient << 48) ^ (quotient << 20) ^ quotient)
}

// The remainder of a word. The quotient by the generator is the word times the generator's powers 8, 4, 2 and 1. With the
// generator itself these make its power 16: a 1 and then 63 zeros or more.
#[inline(always)]
#[tactic(auto, using(crate::proofs::Words::word_divided))]
fn divide_word(word: u64) -> u16
    ensures { result ≡ words_remainder (word ∷ []) }
{
    let mut quotient = word ^ (word >> 32);
    quotient ^= (quotient >> 16) ^ (quotient >> 44);
    quotient ^= (quotient >> 8) ^ (quotient >> 22) ^ (quotient >> 32);
    quotient ^= (quotient >> 4) ^ (quotient >> 11) ^ (quotient >> 16);
    let last = (quotient & 0xFFFF) as u16;
    last ^ (last << 5) ^ (last << 12)
}
