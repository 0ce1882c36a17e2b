//! Laws of the definitions. These functions make no calls: their contracts are the laws.

ghost use Rattle.std.specs.Prelude.{◌≡◌, ◌<◌, ◌≤◌, ℕ, List, length, sum, sum_by};
ghost use Rattle.tm_frame.specs.Frame.{GoodFrame};
ghost use Rattle.tm_packet.specs.Merge as sequence;
ghost use Rattle.tm_items.specs.Item.{Item};
ghost use Rattle.tm_items.specs.Sinks.{ItemFits};
ghost use Rattle.tm_packet.specs.Merge.{Entries};
ghost use Rattle.tm_summary.specs.Adding.{with_frame, with_item, with_note};
ghost use Rattle.tm_summary.specs.Kinds.{Noted};
ghost use Rattle.tm_summary.specs.SummaryNumbers.{Tally, and_frame, and_item, and_note, numbers_of};
ghost use Rattle.tm_summary.specs.Sums.{IsBelowGreatest, application_counts, counts_on, fault_counts, loss_counts};
ghost use Rattle.tm_summary.specs.Tallies.{AllFit, and_items, and_notes, open_notes, with_all, with_open};

/// Counting: with a further frame, item or note the numbers are those of the lists with it.
pub fn counting()
    ensures frame { (t : Tally) (f : GoodFrame) → f.channel < 8
        → numbers_of (and_frame t f) ≡ with_frame (numbers_of t) f.channel f.kind (length f.field) }
    ensures item { (t : Tally) (x : Item) → ItemFits x → numbers_of (and_item t x) ≡ with_item (numbers_of t) x }
    ensures note { (t : Tally) (n : Noted) → n.key < 16384 → numbers_of (and_note t n) ≡ with_note (numbers_of t) n.key n.note }
{}

/// A sink that counts: with further items, and with the groups that are open at a closed end, the numbers are those of the lists with
/// them.
pub fn giving()
    ensures items { (t : Tally) (e : Entries) (xs : List Item) → AllFit xs
        → with_all e (numbers_of t) xs ≡ numbers_of (and_items t e xs) }
    ensures open { (t : Tally) (e : Entries) → length e ≤ 16384
        → with_open (numbers_of t) (sequence.unclosed 0 e) ≡ numbers_of (and_notes t (open_notes (sequence.unclosed 0 e))) }
{}

/// What adds up, where the sum is below 2^64 - 1. The records of the `fault` lines are the bad frames. The parts and octets of a channel's `loss`
/// lines are its dropped parts and their octets. The packets and octets of its `application` lines are its packets and their octets.
pub fn sums()
    ensures faults { (t : Tally) → IsBelowGreatest (numbers_of t).bad → sum (fault_counts (numbers_of t)) ≡ (numbers_of t).bad }
    ensures parts { (t : Tally) (channel : ℕ) → channel < 8 → IsBelowGreatest (counts_on channel (numbers_of t)).dropped →
        sum_by (λ l. l.parts) (loss_counts channel (numbers_of t)) ≡ (counts_on channel (numbers_of t)).dropped }
    ensures lost { (t : Tally) (channel : ℕ) → channel < 8 → IsBelowGreatest (counts_on channel (numbers_of t)).lost →
        sum_by (λ l. l.octets) (loss_counts channel (numbers_of t)) ≡ (counts_on channel (numbers_of t)).lost }
    ensures packets { (t : Tally) (channel : ℕ) → channel < 8 → IsBelowGreatest (counts_on channel (numbers_of t)).packets →
        sum_by (λ a. a.packets) (application_counts channel (numbers_of t)) ≡ (counts_on channel (numbers_of t)).packets }
    ensures octets { (t : Tally) (channel : ℕ) → channel < 8 → IsBelowGreatest (counts_on channel (numbers_of t)).octets →
        sum_by (λ a. a.octets) (application_counts channel (numbers_of t)) ≡ (counts_on channel (numbers_of t)).octets }
{}
