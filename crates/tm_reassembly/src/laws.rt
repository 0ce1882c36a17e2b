//! Laws of the definitions. These functions make no calls: their contracts are the laws.

ghost use Rattle.std.specs.Prelude.{◌≡◌, ◌⊎◌, ℕ, ◌+◌, ◌^◌, ◌<◌, ◌≤◌, nat_le, true, false, ◌&&◌, Some, None, Ok, slice_get, List, [], ◌∷◌, ◌++◌, length, take};
ghost use Rattle.std.specs.List.{flat_map, filter};
ghost use Rattle.tm_bits.specs.Bits.{AreOctets};
ghost use Rattle.tm_frame.specs.declared.layout.LayoutParts.{LayoutParts};
ghost use Rattle.tm_frame.specs.Layout.{IsInRange};
ghost use Rattle.tm_frame.specs.Rules.{Rules, IsLimit, chooses};
ghost use Rattle.tm_reassembly.specs.State.{State, Tail};
ghost use Rattle.tm_reassembly.specs.Valid.{IsValidState, AllOctets};
ghost use Rattle.tm_reassembly.specs.Origins.{Records, Origin, given_items, state_behind, items_forgotten, state_forgotten, runs_of, items_of_channel, read_from};
ghost use Rattle.tm_reassembly.specs.Bounds.{event_counts, packet_sizes};
ghost use Rattle.tm_reassembly.specs.Checkpoint.{state_spelling, old_spelling, DecodedState, state_decoding_of, old_decoding_of};
ghost use Rattle.tm_reassembly.specs.OlderForms.{LacksFirstGap, without_gaps_at, first_good_record, one_octet_more, without_master};
ghost use Rattle.tm_reassembly.specs.Items.{empty, held_part, chain_parts, master_items, seen_at};
ghost use Rattle.tm_items.specs.Item.{Item, Packet, seen_of};
ghost use Rattle.tm_items.specs.Among.{Among, is_of, is_master_gap};
ghost use Rattle.tm_reassembly.specs.Recording.{readings, items, after};
ghost use Rattle.tm_items.specs.declared.items.Reason.TheVariants as why;
ghost use Rattle.tm_reassembly.specs.Chain.{ChainMember, Run, End, master_chain};
ghost use Rattle.tm_reassembly.specs.Parts.{Start, starts_of, text, reach_of, is_long, begins_packet, agrees, open_after, claims, holder, breaker, joined, Given, fate_at, lost_lead};
ghost use Rattle.tm_items.specs.OnePacket.{packet_length};
ghost use Rattle.tm_reassembly.specs.Absolute.{start_in_text, frame_begin, frame_end, packet_length_at, IsVersionZero, IsLong, BeginsPacket, Agrees, Iff, IsIn, LiesAfter, FrameInRun, text_of_run, IsStartIn, IsOpenIn, AgreesByPlace, lead_in, StartInRun, text_with, place_of_start, reach_of_start, frames_up_to, IsLongUpTo, IsOpenBehind, GoesOnByPlace, GoesOnWith, IsWholeIn, part_of_start, part_up_to, part_in_frame, part_before};
ghost use Rattle.tm_reassembly.specs.Tiles.{Spot, channel_spots, parts_of, held_tail, Tile, IsHeld};
ghost use Rattle.tm_reassembly.specs.Verdict.{completed_at_once, Grow, IsSettledIn, is_whole};

/// Joining: the items of two lists of records, one after the other, are those of the first, and then those of the second from
/// the state that the first leaves. So are the states.
pub fn joining()
    ensures items_join { (o : Origin) (a b : Records)
        → given_items o (a ++ b) ≡ given_items o a ++ items o.rules (state_behind o a) b }
    ensures states_join { (o : Origin) (a b : Records) → state_behind o (a ++ b) ≡ after o.rules (state_behind o a) b }
{}

/// Valid states: the state of no records is valid, and records leave a valid state valid, as long as their number can be told. What a
/// valid state holds of a channel is shorter than the longest packet that the limit allows.
pub fn valid_states()
    ensures none { (rules : Rules) → IsLimit rules.max_packet → IsValidState rules empty }
    ensures left_valid { (o : Origin) (records : Records) → AllOctets records → o.state.records + length records < 2 ^ 32 →
        IsValidState o.rules (state_behind o records) }
    ensures short_tails { (o : Origin) (c : ℕ) (t : Tail) → held_tail o.state c ≡ Some t → length t.octets < o.rules.max_packet }
{}

/// Spellings: what is spelled is read again as the same state, whatever follows, and no spelling is a proper prefix of another.
/// Octets that are read as a state begin with its spelling, which is the octets that were read. In the older form this holds too,
/// except that the last master channel count is lost. With a 0 put after the number of records the newer form reads what the
/// older one reads without it.
pub fn spellings()
    ensures read_again { (o : Origin) (rest : List ℕ) →
        state_decoding_of o.rules (state_spelling o.state ++ rest) ≡ Ok (read_from o.state (state_spelling o.state)) }
    ensures no_prefix { (o : Origin) (t : State) (rest : List ℕ) → IsValidState o.rules t →
        state_spelling o.state ++ rest ≡ state_spelling t → (o.state ≡ t) × (rest ≡ []) }
    ensures spelled_again { (rules : Rules) (octets : List ℕ) (d : DecodedState) → AreOctets octets
        → state_decoding_of rules octets ≡ Ok d →
        (d.octets ≤ length octets) × (take d.octets octets ≡ state_spelling d.state) }
    ensures old_read_again { (o : Origin) (rest : List ℕ) →
        old_decoding_of o.rules (old_spelling o.state ++ rest) ≡ Ok (read_from (without_master o.state) (old_spelling o.state)) }
    ensures old_spelled_again { (rules : Rules) (octets : List ℕ) (d : DecodedState) → AreOctets octets
        → old_decoding_of rules octets ≡ Ok d →
        (d.octets ≤ length octets) × (take d.octets octets ≡ old_spelling d.state) × (d.state.master ≡ None) }
    ensures old_no_prefix { (o : Origin) (t : State) (rest : List ℕ) → IsValidState o.rules t →
        old_spelling o.state ++ rest ≡ old_spelling t → (without_master o.state ≡ without_master t) × (rest ≡ []) }
    ensures one_form { (rules : Rules) (a b : List ℕ) → length a ≡ 4 →
        state_decoding_of rules (a ++ 0 ∷ b) ≡ one_octet_more (old_decoding_of rules (a ++ b)) }
{}

/// The last master channel count forgotten: the items of records then lack just one gap, that of the first good frame after that
/// count, if it comes and has one. So they are all but the gap of the master channel at its record, whatever records come after
/// these. At each record there is one such gap at most, so for each of some records at most one is left out. The states that the
/// records leave are the same; or no good frame came, and then all items are there and the count is still not known.
pub fn forgotten_count()
    ensures items_lack { (o : Origin) (records : Records) →
        LacksFirstGap o.state (readings o.rules.layout records) (given_items o records) (items_forgotten o records) }
    ensures without_first { (o : Origin) (records later : Records) → items_forgotten o records
        ≡ without_gaps_at (first_good_record o.state.records (readings o.rules.layout (records ++ later)))
        (given_items o records) }
    ensures few_left_out { (o : Origin) (records : Records) (numbers : List ℕ) →
        length (given_items o records) ≤ length (without_gaps_at numbers (given_items o records)) + length numbers }
    ensures states_meet { (o : Origin) (records : Records) → (state_forgotten o records ≡ state_behind o records)
        ⊎ ((state_forgotten o records ≡ without_master (state_behind o records))
        × (items_forgotten o records ≡ given_items o records)) }
{}

/// Settled verdicts are the same for every extension of the records. They are whether a start is open at a frame, whether the
/// frame agrees with it, and whether its packet is long or whole there. The same holds for whether its packet is long, or
/// whole, in the start's own frame. More records leave each run that was ended as it is, go on with the last one, and may add
/// runs after it. So each frame of the first records stands in the same run of all.
pub fn settled_verdict()
    ensures runs_grow { (layout : LayoutParts) (s : State) (c : ℕ) (a b : Records)
        → Grow (runs_of layout s c a) (runs_of layout s c (a ++ b)) }
    ensures later_frame { (layout : LayoutParts) (s : State) (c : ℕ) (a b : Records) (i : ℕ) (r : Run)
        → slice_get (runs_of layout s c a) i ≡ Some r →
        (before between later : List ChainMember) (f m : ChainMember) → r.members ≡ before ++ f ∷ (between ++ m ∷ later) →
        IsSettledIn (runs_of layout s c (a ++ b)) i before f between m later }
    ensures own_frame { (limit : ℕ) (start : List ℕ) (later : List ChainMember) →
        completed_at_once limit start later ≡ (begins_packet limit start && nat_le (packet_length start) (length start)) }
    ensures own_long { (limit : ℕ) (start : List ℕ) (later : List ChainMember) →
        is_long limit (reach_of start later) (length start) ≡ is_long limit (packet_length start) (length start) }
{}

/// Merged by record nothing is lost, and nothing is added. From a valid state, each item of a channel is seen at one of the
/// records. If the channel is chosen it is among the items of the records. At each record these have just the channel's items
/// that are seen there, in the same order. Each packet, dropped part, gap and VCA frame among the items of the records is one of
/// its channel's items. The gaps of the master channel among them are just those of the master chain, the list of all good
/// frames, in its order.
pub fn nothing_is_lost()
    ensures in_time { (o : Origin) (records : Records) (c : ℕ) (x : Item) → Among x (items_of_channel o.rules o.state c records) →
        (o.state.records ≤ seen_of x) × (seen_of x < o.state.records + length records) }
    ensures told { (o : Origin) (records : Records) (c : ℕ) → chooses o.rules c ≡ true →
        (x : Item) → Among x (items_of_channel o.rules o.state c records) → Among x (given_items o records) }
    ensures in_order { (o : Origin) (records : Records) (c : ℕ) → chooses o.rules c ≡ true → (number : ℕ) →
        seen_at number (filter (λ x. is_of c x) (given_items o records))
        ≡ seen_at number (items_of_channel o.rules o.state c records) }
    ensures nothing_added { (rules : Rules) (s : State) (records : Records) (c : ℕ) (x : Item) → is_of c x ≡ true →
        Among x (items rules s records) → (chooses rules c ≡ true) × Among x (items_of_channel rules s c records) }
    ensures masters { (o : Origin) (records : Records) →
        filter (λ x. is_master_gap x) (given_items o records)
        ≡ master_items (master_chain o.state (readings o.rules.layout records)) }
{}

/// No packet among the items of records has more octets than the limit.
pub fn limited_packets()
    ensures limited { (o : Origin) (records : Records) (seen channel first place : ℕ) (octets : List ℕ) →
        Among (Packet seen channel first place octets) (given_items o records) → length octets ≤ o.rules.max_packet }
{}

/// Bounds: from a valid state, under a layout in range, one record gives at most 1,170 events. A packet counts as four of them, itself
/// and at most three notes of its header, and any other item as one. The record's packets have at most `max_packet` + 2,041 octets
/// together.
pub fn bounds()
    ensures events { (o : Origin) (octets : List ℕ) → IsInRange o.rules.layout →
        event_counts (given_items o (octets ∷ [])) ≤ 1170 }
    ensures sizes { (o : Origin) (octets : List ℕ) → IsInRange o.rules.layout →
        packet_sizes (given_items o (octets ∷ [])) ≤ o.rules.max_packet + 2041 }
{}

/// Tiling, from no records: take the packets and dropped parts of a chosen channel in the order given, and then its held tail.
/// They begin at the first octet of the channel's joined data fields, each where the one before ends, and end at the last octet.
pub fn tiling()
    ensures tiled { (rules : Rules) (channel : ℕ) (records : Records) → channel < 8 → chooses rules channel ≡ true
        → (rest : List Spot)
        × Tile (channel_spots channel 0 (readings rules.layout records)) (parts_of channel (items rules empty records)) rest
        × IsHeld (held_tail (after rules empty records) channel) rest }
{}

/// At each frame at most one start of the frames before it is open. At the end of a chain at most one part is held, whatever the
/// frames are.
pub fn at_most_one()
    ensures open_starts { (limit : ℕ) (before ahead : List ChainMember) → length (claims limit before ahead) ≤ 1 }
    ensures held_tails { (limit : ℕ) (ms : List ChainMember)
        → length (flat_map (λ p. held_part p p.fate) (chain_parts limit ms)) ≤ 1 }
{}

/// The definitions count from a start. With places in the text of the run they say the same. That goes for which the starts are,
/// where a packet ends, and whether a later frame agrees with it. It goes for whether it is long there or in its own frame,
/// whether it is open at one, and whether it is whole. The start is what follows the octets `skipped` in its frame's field.
pub fn places_in_text()
    ensures starts_there { (limit : ℕ) (r : FrameInRun) (s : Start) → IsIn s (starts_of limit r.frame) →
        (skipped : List ℕ) × LiesAfter r.frame s skipped × IsStartIn limit r (start_in_text r.before skipped) }
    ensures starts_here { (limit : ℕ) (r : FrameInRun) (q : ℕ) → IsStartIn limit r q →
        (s : Start) × (skipped : List ℕ) × IsIn s (starts_of limit r.frame) × LiesAfter r.frame s skipped
        × (q ≡ start_in_text r.before skipped) }
    ensures ends { (p : StartInRun) → packet_length_at (text_with p) (place_of_start p) ≡ place_of_start p + reach_of_start p }
    ensures agreement { (limit : ℕ) (p : StartInRun) (between : List ChainMember) (m : ChainMember) →
        Iff (agrees limit (reach_of_start p) (length p.octets + length (text between)) m ≡ true) (GoesOnWith limit p between m) }
    ensures long { (limit : ℕ) (p : StartInRun) (between : List ChainMember) (m : ChainMember) →
        Iff (is_long limit (reach_of_start p) ((length p.octets + length (text between)) + length m.field) ≡ true)
        (IsLongUpTo limit p (frame_end (frames_up_to p ++ between) m)) }
    ensures own_long { (limit : ℕ) (p : StartInRun) →
        Iff (is_long limit (packet_length p.octets) (length p.octets) ≡ true)
        (IsLongUpTo limit p (frame_begin (frames_up_to p))) }
    ensures opened { (limit : ℕ) (p : StartInRun) (between : List ChainMember) → 0 < length p.octets →
        Iff ((begins_packet limit p.octets && open_after limit (reach_of_start p) (length p.octets) between) ≡ true)
        (IsOpenBehind limit p between) }
    ensures whole { (limit : ℕ) (p : StartInRun) → 0 < length p.octets
        → Iff (is_whole limit p.octets p.later ≡ true) (IsWholeIn limit p) }
{}

/// Where parts end. A packet is seen at the frame that holds its last octet, which is a later one or the start's own. A start that a
/// frame breaks off is open there, the frame doesn't agree with it, and the octets that it keeps are those up to that frame.
pub fn part_ends()
    ensures last_octet { (reach at number : ℕ) (between more : List ChainMember) (m : ChainMember) →
        at + length (text between) < reach → reach ≤ (at + length (text between)) + length m.field →
        holder reach at number (between ++ m ∷ more) ≡ m.number }
    ensures own_frame { (reach at number : ℕ) (later : List ChainMember) → reach ≤ at → holder reach at number later ≡ number }
    ensures broken_off { (limit reach at : ℕ) (later : List ChainMember) (m : ChainMember)
        → breaker limit reach at later ≡ Some m → (between : List ChainMember) × (more : List ChainMember)
        × (later ≡ between ++ m ∷ more) × (open_after limit reach at between ≡ true)
        × (agrees limit reach (at + length (text between)) m ≡ false) × (joined limit reach at later ≡ between) }
{}

/// The parts with places in the text of the run. At a frame at which no start is open, the octets before its place are lost, or
/// all of them without one. Where a start is open they are lost if the frame doesn't agree with it by its place. They are also
/// lost if it does so by its place but the packet is long there. Else they are no part of their own. A start that isn't of
/// version 0, or is long in its own frame, is unread up to the end of that. Another one is a packet up to where that ends, if it
/// is whole. Else, if it is open at a frame that doesn't agree with it, it is the octets up to that frame. Else it is all octets
/// up to the end of the text, which are held, or lost as the run ends.
pub fn parts_in_text()
    ensures no_start { (limit : ℕ) (r : FrameInRun) → ((q : ℕ) → IsOpenIn limit r q → ⊥)
        → lead_in limit r ≡ lost_lead r.frame why.NoStart }
    ensures pointer { (limit : ℕ) (r : FrameInRun) (q : ℕ) → IsOpenIn limit r q → (AgreesByPlace r q → ⊥) →
        lead_in limit r ≡ lost_lead r.frame why.Pointer }
    ensures long_lead { (limit : ℕ) (r : FrameInRun) (q : ℕ) → IsOpenIn limit r q → AgreesByPlace r q →
        IsLong limit (text_of_run r) q (frame_end r.before r.frame) → lead_in limit r ≡ lost_lead r.frame why.Length }
    ensures joined { (limit : ℕ) (r : FrameInRun) (q : ℕ) → IsOpenIn limit r q →
        Agrees limit (text_of_run r) q (frame_begin r.before) r.frame → lead_in limit r ≡ [] }
    ensures unread { (limit : ℕ) (p : StartInRun) (end : End) → 0 < length p.octets
        → (IsVersionZero (text_with p) (place_of_start p) → ⊥) →
        part_of_start limit p end ≡ part_in_frame p why.Version }
    ensures long_unread { (limit : ℕ) (p : StartInRun) (end : End) → 0 < length p.octets
        → IsVersionZero (text_with p) (place_of_start p) →
        IsLongUpTo limit p (frame_begin (frames_up_to p)) → part_of_start limit p end ≡ part_in_frame p why.Length }
    ensures packet { (limit : ℕ) (p : StartInRun) (end : End) → 0 < length p.octets → IsWholeIn limit p
        → part_of_start limit p end
        ≡ part_up_to p (packet_length_at (text_with p) (place_of_start p))
        (Given (holder (reach_of_start p) (length p.octets) p.frame.number p.later)) }
    ensures broken { (limit : ℕ) (p : StartInRun) (end : End) → 0 < length p.octets
        → (between more : List ChainMember) (m : ChainMember) →
        p.later ≡ between ++ m ∷ more → IsOpenBehind limit p between → (GoesOnByPlace p between m → ⊥) →
        part_of_start limit p end ≡ part_before p between m why.Pointer }
    ensures long_broken { (limit : ℕ) (p : StartInRun) (end : End) → 0 < length p.octets
        → (between more : List ChainMember) (m : ChainMember) → p.later ≡ between ++ m ∷ more → IsOpenBehind limit p between
        → GoesOnByPlace p between m → IsLongUpTo limit p (frame_end (frames_up_to p ++ between) m)
        → part_of_start limit p end ≡ part_before p between m why.Length }
    ensures unended { (limit : ℕ) (p : StartInRun) (end : End) → 0 < length p.octets →
        BeginsPacket limit (text_with p) (place_of_start p) (frame_begin (frames_up_to p)) → (IsWholeIn limit p → ⊥) →
        ((between more : List ChainMember) (m : ChainMember) → p.later ≡ between ++ m ∷ more → IsOpenBehind limit p between →
        GoesOnWith limit p between m) →
        part_of_start limit p end ≡ part_up_to p (length (text_with p)) (fate_at end) }
{}
