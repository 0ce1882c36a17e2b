//! Laws of the definitions. These functions make no calls: their contracts are the laws.

ghost use Rattle.std.specs.Prelude.{◌≡◌, ◌≤◌, ℕ, Ok, List, [], ◌++◌, length, take};
ghost use Rattle.tm_packet.specs.Spelling.{DecodedEntries, entries_spelling, entries_decoding_of};
ghost use Rattle.tm_bits.specs.Bits.{AreOctets, bits_of};
ghost use Rattle.tm_packet.specs.Header.{packet_version_of, packet_header_of, header_bits};
ghost use Rattle.tm_packet.specs.Merge as sequence;
ghost use Rattle.tm_packet.specs.Merge.{Entries, Sent};
ghost use Rattle.tm_packet.specs.Valid.{AreValidEntries, AllHeadersFit};

/// Joining, from every state. The notes of two lists of headers, one after the other, are those of the first, and then those of
/// the second from the entries that it leaves. So are the entries.
#[tactic(auto, using(crate::proofs::Merging::joins))]
pub fn joining()
    ensures notes_join { (s : Entries) (a b : List Sent) → AreValidEntries s → AllHeadersFit b →
        sequence.notes s (a ++ b) ≡ sequence.notes s a ++ sequence.notes (sequence.entries_after s a) b }
    ensures entries_join { (s : Entries) (a b : List Sent) →
        sequence.entries_after s (a ++ b) ≡ sequence.entries_after (sequence.entries_after s a) b }
{}

/// Round trip: a header that is read and written again has the bits of its six octets, and octets are told by their bits.
#[tactic(auto, using(crate::proofs::RoundTrip::written_again, crate::proofs::RoundTrip::bits_tell))]
pub fn round_trip()
    ensures written_again { (octets : List ℕ) → AreOctets octets → 6 ≤ length octets → packet_version_of octets ≡ 0 →
        header_bits (packet_header_of octets) ≡ bits_of (take 6 octets) }
    ensures bits_tell { (xs ys : List ℕ) → AreOctets xs → AreOctets ys → bits_of xs ≡ bits_of ys → xs ≡ ys }
{}

/// Spelling: what is spelled is read again as the same entries, whatever follows it, and no spelling is a proper prefix of another.
/// Octets that are read as entries begin with their spelling, which is the octets that were read.
#[tactic(auto, using(crate::proofs::Spelled::spells))]
pub fn spellings()
    ensures read_again { (s : Entries) (rest : List ℕ) → AreValidEntries s →
        entries_decoding_of (entries_spelling s ++ rest) ≡ Ok (record { entries = s; octets = length (entries_spelling s) }) }
    ensures no_prefix { (s t : Entries) (rest : List ℕ) → AreValidEntries s → AreValidEntries t →
        entries_spelling s ++ rest ≡ entries_spelling t → (s ≡ t) × (rest ≡ []) }
    ensures spelled_again { (octets : List ℕ) (d : DecodedEntries) → AreOctets octets →
        entries_decoding_of octets ≡ Ok d → (d.octets ≤ length octets) × (take d.octets octets ≡ entries_spelling d.entries) }
{}
