//! Laws of the definitions. These functions make no calls: their contracts are the laws.

ghost use Rattle.std.specs.List.{concat, flat_map};
ghost use Rattle.std.specs.Prelude.{◌≡◌, ◌+◌, ◌++◌, ℕ, Bool, Some, List, ◌∷◌, length, false};
ghost use Rattle.tm_items.specs.Item.{Item};
ghost use Rattle.tm_output.specs.declared.command.Command.TheVariants.{Extract, Packets};
ghost use Rattle.tm_lines.specs.Lines.{note_line};
ghost use Rattle.tm_output.specs.Pieces.{pieces_of, rows_text, text_of};
ghost use Rattle.tm_fields.specs.declared.field.Field.{Field};
ghost use Rattle.tm_fields.specs.declared.rows.RowForm.TheVariants.{Binary};
ghost use Rattle.tm_feed.specs.Choosing.{HasOneDefinition};
ghost use Rattle.tm_packet.specs.declared.notes.Note.{Note};
ghost use Rattle.tm_packet.specs.Merge.{Entries};
ghost use Rattle.tm_feed.specs.Calls.{IsSound, after_calls, events_of_calls, octets_of_calls};
ghost use Rattle.tm_feed.specs.EventLines.{event_line, packet_lines, report_lines};
ghost use Rattle.tm_feed.specs.Events.{note_event};
ghost use Rattle.tm_feed.specs.Feeding.{events_of, gives, packed_octets};
ghost use Rattle.tm_feed.specs.Jobs.{all_given, fed, fed_events, fed_octets, without_rows};
ghost use Rattle.tm_feed.specs.States.{Chosen, FeedState};

/// Calls: a job is fed with octets in any pieces, one call after the other. It is left as by one call that takes all of them. The events of all
/// calls, one after the other, and the octets of their packets are those of that call.
#[tactic(auto, using(crate::proofs::CallLemmas::in_one_call))]
pub fn calls()
    ensures jobs { (job : FeedState) (first : List ℕ) (calls : List (List ℕ)) → IsSound job →
        after_calls job (first ∷ calls) ≡ fed job (first ++ concat calls) }
    ensures events { (job : FeedState) (first : List ℕ) (calls : List (List ℕ)) → IsSound job → (at : ℕ) →
        events_of_calls at job (first ∷ calls) ≡ fed_events at job (first ++ concat calls) }
    ensures octets { (job : FeedState) (first : List ℕ) (calls : List (List ℕ)) → IsSound job →
        octets_of_calls job (first ∷ calls) ≡ fed_octets job (first ++ concat calls) }
{}

/// Lines: the events of items say what the program says of them. Those of the packets, if all are given, are the lines of `tmx packets`, in their
/// order, and the others are the report of `tmx extract`.
#[tactic(auto, using(crate::proofs::LineLemmas::lines_said))]
pub fn lines()
    ensures packets { (chosen : Chosen) → chosen.only ≡ all_given → (at : ℕ) (entries : Entries) (items : List Item) →
        packet_lines (events_of chosen at entries items)
        ≡ flat_map (λ piece. piece.out) (pieces_of (text_of Packets) entries items) }
    ensures report { (only : List Bool) (at : ℕ) (entries : Entries) (items : List Item) →
        report_lines (events_of (without_rows only) at entries items)
        ≡ flat_map (λ piece. piece.report) (pieces_of (text_of Extract) entries items) }

    // So do those of the groups that are open at the end.
    ensures notes { (seen channel application : ℕ) (note : Note) →
        event_line (note_event seen channel application note) ≡ Some (note_line seen channel application note) }
{}

/// Rows: a job with one definition gives what `tmx fields --binary` gives. Its lines are the report of the command. Where it gives no packets, its
/// octets are the rows.
#[tactic(auto, using(crate::proofs::RowLemmas::rows_given_by))]
pub fn rows()
    ensures report { (chosen : Chosen) (application : ℕ) (fields : List Field) → HasOneDefinition application fields chosen →
        (at : ℕ) (entries : Entries) (items : List Item) →
        report_lines (events_of chosen at entries items)
        ≡ flat_map (λ piece. piece.report) (pieces_of (rows_text Binary fields application) entries items) }
    ensures octets { (chosen : Chosen) (application : ℕ) (fields : List Field) → HasOneDefinition application fields chosen →
        ((other : ℕ) → gives chosen.only other ≡ false) → (entries : Entries) (items : List Item) →
        packed_octets chosen items ≡ flat_map (λ piece. piece.out) (pieces_of (rows_text Binary fields application) entries items) }
{}
